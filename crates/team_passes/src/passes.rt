// Passes that are split from the first one, and joined into it again.
ghost use Rattle.std.specs.Prelude.{◌≡◌, ◌+◌, ◌<◌, ◌≤◌, ◌++◌, [], ◌∷◌, All, IfOk, OnOk, OnErr, length, vec_capacity, vec_len};
ghost use Rattle.team_passes.specs.Teams.{IsTeamPass, IsFirstPass, MayDraw, AreDrawn, AreTakenIn};

use crate::team_pass::TeamPass;
use cell_store::Store;
use live_cells::{Cells, Memory};
use queue_desk::QueueDesk;
use turn_cell::Turn;

/// Splits a pass of the cells and one of the queue from the first ones. Where there is no memory for it none is split.
pub fn split_pass<S: Store>(
    cells: &Cells<S>,
    queue: &Turn<QueueDesk>,
    first: &mut TeamPass<S>,
) -> Result<TeamPass<S>, Memory>
    requires first { IsFirstPass cells.now queue.now first.old }
    requires room { MayDraw 1 first.old }
    ensures first { IsFirstPass cells.now queue.now first.new }
    ensures drawn { IfOk result (λ pass. AreDrawn cells.now queue.now first.old (pass ∷ []) first.new) }
    ensures wanting { OnErr result (AreDrawn cells.now queue.now first.old [] first.new) }
{
    let pass = cells.split(&mut first.cells)?;
    let asks = queue.split(&mut first.asks);
    Ok(TeamPass { cells: pass, asks })
}

/// Splits so many passes of both from the first ones. Where memory is wanting fewer of them are split.
pub fn draw<S: Store>(
    cells: &Cells<S>,
    queue: &Turn<QueueDesk>,
    first: &mut TeamPass<S>,
    count: u32,
    drawn: &mut Vec<TeamPass<S>>,
) -> Result<(), Memory>
    requires first { IsFirstPass cells.now queue.now first.old }
    requires room { MayDraw count first.old }
    requires none { drawn.old.items ≡ [] }
    requires capacity { count ≤ vec_capacity drawn.old }
    ensures first { IsFirstPass cells.now queue.now first.new }
    ensures drawn { AreDrawn cells.now queue.now first.old drawn.new.items first.new }
    ensures count { OnOk result (length drawn.new.items ≡ count) }
    ensures wanting { OnErr result (length drawn.new.items < count) }
    ensures few { length drawn.new.items ≤ count }
{
    for _ in 0..count {
        let pass = split_pass(cells, queue, first)?;
        add_pass(drawn, pass);
    }
    Ok(())
}

/// Adds a pass where there is room.
pub fn add_pass<S>(passes: &mut Vec<TeamPass<S>>, pass: TeamPass<S>)
    requires room { vec_len passes.old < vec_capacity passes.old }
    ensures added { passes.new.items ≡ passes.old.items ++ pass ∷ [] }
    ensures capacity { vec_capacity passes.old ≤ vec_capacity passes.new }
{
    let _ = passes.push(pass);
}

/// Joins a pass of both into the first ones.
pub fn join_pass<S: Store>(
    cells: &Cells<S>,
    queue: &Turn<QueueDesk>,
    first: &mut TeamPass<S>,
    other: TeamPass<S>,
)
    requires first { IsFirstPass cells.now queue.now first.old }
    requires other { IsTeamPass cells.now queue.now other }
    ensures first { IsFirstPass cells.now queue.now first.new }
    ensures joined { AreTakenIn first.old (other ∷ []) first.new }
{
    let TeamPass { cells: pass, asks } = other;
    cells.join(&mut first.cells, pass);
    queue.join(&mut first.asks, asks);
}

/// Joins passes of both into the first ones, in order.
pub fn take_back<S: Store>(
    cells: &Cells<S>,
    queue: &Turn<QueueDesk>,
    first: &mut TeamPass<S>,
    others: Vec<TeamPass<S>>,
)
    requires first { IsFirstPass cells.now queue.now first.old }
    requires own { All (IsTeamPass cells.now queue.now) others.items }
    ensures first { IsFirstPass cells.now queue.now first.new }
    ensures joined { AreTakenIn first.old others.items first.new }
{
    for other in others {
        join_pass(cells, queue, first, other);
    }
}
