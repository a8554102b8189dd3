// What eyes do with their two passes, and how their pins stay.
ghost use Rattle.std.specs.Prelude.{◌≡◌, ◌≢◌, ◌⊎◌, ℕ, ◌+◌, ◌<◌, List, [], ◌∷◌, length, false, IfOk, IfErr, OnOk, OnErr};
ghost use Rattle.arr_history.specs.declared.cell_state.Seen.TheVariants as seen;
ghost use Rattle.arr_history.specs.declared.event.Event.{Event};
ghost use Rattle.arr_history.specs.declared.event.Event.TheVariants as event;
ghost use Rattle.call_events.specs.Pieces.{IsAcquired};
ghost use Rattle.pin_words.specs.Words.{times};
ghost use Rattle.pin_rule.specs.Parts.{PinnedCell};
ghost use Rattle.pin_rule.specs.Calls.{plan_at, cell_count, voxel_count};
ghost use Rattle.pin_rule.specs.Going.{Goes};
ghost use Rattle.live_cells.specs.Cells.{table, knows, IsCellPassOf, IsHandleOf, IsRefusedFor};
ghost use Rattle.cell_grid.specs.Pyramid.{cells_of};
ghost use Rattle.turn_cell.specs.Turn as turn;
ghost use Rattle.whole_affine.specs.Parts.{LiesIn};
ghost use Rattle.whole_affine.specs.Offsets.{offset_ahead};
ghost use Rattle.scale_pick.specs.Shade.{shown};
ghost use Rattle.scale_pick.specs.Runs.{IsRunOf, ShowsRun};
ghost use Rattle.volatile_cell.specs.Requests.{request_for};
ghost use Rattle.volatile_cell.specs.Showing.{reads_along};
ghost use Rattle.queue_desk.specs.Asking.{AsksQueue};
ghost use Rattle.team_eyes.specs.Holding.{HoldsStill};
ghost use Rattle.team_eyes.specs.Teammate.{GoesPinned};

use cell_file::AcquireErr;
use cell_grid::Geometry;
use cell_store::Store;
use live_cells::{CellPass, Cells};
use pin_rule::{Handle, NotLive};
use queue_desk::{QueueDesk, put};
use scale_pick::{Picture, Run, Shades};
use std::sync::Wait;
use turn_cell::{Turn, TurnPass};
use volatile_cell::hints;
use whole_affine::OffsetWalk;

/// Pins a cell, which is loaded where it is absent.
pub(crate) fn acquire<S: Store, R: Wait>(
    rt: &R,
    cells: &Cells<S>,
    pass: &mut CellPass<S>,
    cell: u32,
) -> Result<Handle, AcquireErr>
    requires pass { IsCellPassOf cells.now pass.old }
    requires still { HoldsStill (knows pass.old) }
    requires cell { cell < cell_count (table cells.now) }
    requires room { length (knows pass.old).pins < 64 }
    ensures pass { IsCellPassOf cells.now pass.new }
    ensures still { HoldsStill (knows pass.new) }
    ensures acquired { (events : List Event) × GoesPinned (plan_at S.contents (table cells.now)) (knows pass.old) events (knows pass.new) × IsAcquired (λ (h : PinnedCell). h.loaded) false (knows pass.old).number cell result events }
    ensures caused { IfErr result (λ err. (events : List Event) × Goes (plan_at S.contents (table cells.now)) (knows pass.old) events (knows pass.new) × IsRefusedFor S.contents (table cells.now) cell (knows pass.old) (knows pass.new) events err) }
    ensures handle { IfOk result (λ h. (h.cell ≡ cell) × IsHandleOf cells.now pass.new h × (length (knows pass.new).pins ≡ length (knows pass.old).pins + 1)) }
    ensures refused { OnErr result (length (knows pass.new).pins ≡ length (knows pass.old).pins) }
    ensures kept { (h : PinnedCell) → IsHandleOf cells.now pass.old h → IsHandleOf cells.now pass.new h }
{
    cells.acquire(rt, pass, cell)
}

/// Pins a cell where it is live.
pub(crate) fn look<S: Store>(
    cells: &Cells<S>,
    pass: &mut CellPass<S>,
    cell: u32,
) -> Result<Handle, NotLive>
    requires pass { IsCellPassOf cells.now pass.old }
    requires still { HoldsStill (knows pass.old) }
    requires cell { cell < cell_count (table cells.now) }
    requires room { length (knows pass.old).pins < 64 }
    ensures pass { IsCellPassOf cells.now pass.new }
    ensures still { HoldsStill (knows pass.new) }
    ensures hit { OnOk result (GoesPinned (plan_at S.contents (table cells.now)) (knows pass.old) (event.Pin (knows pass.old).number cell ∷ []) (knows pass.new)) }
    ensures missed { OnErr result (GoesPinned (plan_at S.contents (table cells.now)) (knows pass.old) (event.Miss (knows pass.old).number cell ∷ []) (knows pass.new)) }
    ensures not_live { IfErr result (λ e. e.state ≢ seen.Live) }
    ensures handle { IfOk result (λ h. (h.cell ≡ cell) × (h.loaded ≡ false) × IsHandleOf cells.now pass.new h × (length (knows pass.new).pins ≡ length (knows pass.old).pins + 1)) }
    ensures refused { OnErr result (length (knows pass.new).pins ≡ length (knows pass.old).pins) }
    ensures kept { (h : PinnedCell) → IsHandleOf cells.now pass.old h → IsHandleOf cells.now pass.new h }
{
    cells.look(pass, cell)
}

/// The number of a voxel of a held cell.
pub(crate) fn read<S: Store>(
    cells: &Cells<S>,
    pass: &mut CellPass<S>,
    handle: &Handle,
    at: u32,
) -> u64
    requires pass { IsCellPassOf cells.now pass.old }
    requires still { HoldsStill (knows pass.old) }
    requires held { IsHandleOf cells.now pass.old handle.now }
    requires at { at < voxel_count (table cells.now) handle.now.cell }
    ensures pass { IsCellPassOf cells.now pass.new }
    ensures still { HoldsStill (knows pass.new) }
    ensures read { GoesPinned (plan_at S.contents (table cells.now)) (knows pass.old) (event.Read (knows pass.old).number handle.now.cell at result ∷ []) (knows pass.new) }
    ensures pins { length (knows pass.new).pins ≡ length (knows pass.old).pins }
    ensures kept { (h : PinnedCell) → IsHandleOf cells.now pass.old h → IsHandleOf cells.now pass.new h }
{
    cells.read(pass, handle, at)
}

/// Shows a run of pixels by the voxels of a held cell at the offsets of a walk. Each is read in turn, by one load of its word.
pub(crate) fn show<S: Store>(
    cells: &Cells<S>,
    pass: &mut CellPass<S>,
    handle: &Handle,
    walk: OffsetWalk,
    shades: Shades,
    run: Run,
    picture: &mut Picture,
)
    requires pass { IsCellPassOf cells.now pass.old }
    requires still { HoldsStill (knows pass.old) }
    requires held { IsHandleOf cells.now pass.old handle.now }
    requires run { IsRunOf picture.old run }
    requires offsets { (k : ℕ) → k < run.columns → LiesIn (offset_ahead walk k) 0 (voxel_count (table cells.now) handle.now.cell) }
    ensures pass { IsCellPassOf cells.now pass.new }
    ensures still { HoldsStill (knows pass.new) }
    ensures shown { (number : ℕ → ℕ) × GoesPinned (plan_at S.contents (table cells.now)) (knows pass.old) (reads_along (knows pass.old).number handle.now.cell walk number run.columns) (knows pass.new) × ShowsRun picture.old picture.new run (λ k. shown (number k) shades.low shades.high) }
    ensures pins { length (knows pass.new).pins ≡ length (knows pass.old).pins }
    ensures kept { (h : PinnedCell) → IsHandleOf cells.now pass.old h → IsHandleOf cells.now pass.new h }
{
    let _width = picture.width(); // read for what its contract tells the proof
    let mut walk = walk;
    for k in 0..run.columns {
        let number = read(cells, pass, handle, walk.at());
        picture.set_at(run.first + k as usize, shades.shown(number), run.level);
        walk = walk.next();
    }
}

/// Gives a handle back.
pub(crate) fn release<S: Store>(cells: &Cells<S>, pass: &mut CellPass<S>, handle: Handle)
    requires pass { IsCellPassOf cells.now pass.old }
    requires still { HoldsStill (knows pass.old) }
    requires held { IsHandleOf cells.now pass.old handle }
    ensures pass { IsCellPassOf cells.now pass.new }
    ensures still { HoldsStill (knows pass.new) }
    ensures released { GoesPinned (plan_at S.contents (table cells.now)) (knows pass.old) (event.Unpin (knows pass.old).number handle.cell ∷ []) (knows pass.new) }
    ensures pins { length (knows pass.old).pins ≡ length (knows pass.new).pins + 1 }
    ensures kept { (h : PinnedCell) → (h.cell ≢ handle.cell) ⊎ (1 < times handle.cell (knows pass.old).pins) → IsHandleOf cells.now pass.old h → IsHandleOf cells.now pass.new h }
{
    cells.release(pass, handle);
}

/// Asks the queue for a cell: its request goes to the back of the priority of its level. It waits while other passes ask.
pub(crate) fn ask<R: Wait>(
    rt: &R,
    geometry: &Geometry,
    queue: &Turn<QueueDesk>,
    asks: &mut TurnPass<QueueDesk>,
    viewer: u32,
    cell: u32,
)
    requires pass { turn.IsPassOf queue.now asks.old }
    requires cell { cell < cells_of geometry.now }
    ensures pass { turn.IsPassOf queue.now asks.new }
    ensures asked { AsksQueue (turn.view asks.old) (request_for viewer geometry.now cell ∷ []) (turn.view asks.new) }
{
    let hints = hints(geometry, cell);
    put(
        rt,
        queue,
        asks,
        viewer,
        cell,
        hints.priority,
        hints.to_front,
    );
}
