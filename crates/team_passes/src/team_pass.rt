// What a thread reaches shared cells and their queue with.
use live_cells::CellPass;
use queue_desk::QueueDesk;
use turn_cell::TurnPass;

/// A pass of the cells and one of their queue.
#[derive(Drop)]
pub struct TeamPass<S> {
    pub cells: CellPass<S>,
    pub asks: TurnPass<QueueDesk>,
}
