// What a frame is painted by: handles on cells that are there, and requests for those that aren't.
ghost use Rattle.std.specs.Prelude.{◌≡◌, ◌≢◌, ◌⊎◌, ℕ, ◌+◌, ◌<◌, List, [], ◌∷◌, Bool, IfOk, IfErr, IfSome, OnErr};
ghost use Rattle.cell_grid.specs.Pyramid.{cells_of, voxels_of};
ghost use Rattle.arr_history.specs.declared.cell_state.Seen.TheVariants as seen;
ghost use Rattle.arr_history.specs.declared.event.Event.{Event};
ghost use Rattle.arr_history.specs.declared.event.Event.TheVariants as event;
ghost use Rattle.volatile_cell.specs.declared.queue_call.QueueCall.TheVariants as call;
ghost use Rattle.volatile_cell.specs.declared.queue_reply.QueueReply.TheVariants as reply;
ghost use Rattle.volatile_cell.specs.Asked.{Asked, asked};
ghost use Rattle.volatile_cell.specs.Front.{Front, IsFront};
ghost use Rattle.volatile_cell.specs.StrategyRule.{clearing};
ghost use Rattle.call_events.specs.Pieces.{IsAcquired};
ghost use Rattle.whole_affine.specs.Parts.{LiesIn};
ghost use Rattle.whole_affine.specs.Offsets.{offset_ahead};
ghost use Rattle.scale_pick.specs.Runs.{IsRunOf};
ghost use Rattle.volatile_cell.specs.Showing.{ShowsCell};
ghost use Rattle.volatile_cell.specs.Looks.{IsLook, ForReady, ForNotReady, OnNoHandle};

use crate::budget::Budget;
use crate::look::Look;
use cell_file::AcquireErr;
use cell_grid::Geometry;
use fetch_queue::Request;
use scale_pick::{Picture, Run, Shades};
use whole_affine::OffsetWalk;

/// The cells of a pyramid as one viewer sees them, and the queue of those that are wanted.
///
/// Each call names the events and the queue's calls that lead from the eyes before it to those after it. No call changes
/// the pyramid.
pub trait Eyes {
    type Held;

    /// Who looks and at what, how many handles are out on a cell, what leads from one moment to another, and why an acquire
    /// was refused.
    ghost front: { Front Self };

    /// How many handles are out, and which are of these eyes.
    ghost held: { Self → ℕ };

    ghost holds: { Self → Self.Held → Type 0 };

    /// The cell of a handle, and whether it was loaded for it.
    ghost cell_of: { Self.Held → ℕ };

    ghost is_loaded: { Self.Held → Bool };

    /// The pyramid.
    fn geometry(&self) -> &Geometry
        ensures { result.now ≡ (front.looker self.now).levels };

    /// Begins a frame: clears the viewer's requests, and answers how many there were.
    fn begin(&mut self) -> u32
        ensures led { front.leads self.old [] (clearing (front.looker self.old).viewer result ∷ []) self.new }
        ensures held { held self.new ≡ held self.old }
        ensures kept { (h : Self.Held) → holds self.old h → holds self.new h };

    /// Looks at a cell by the strategy of a budget. Where the strategy still loads, the cell is acquired, and a load is
    /// counted; errors come from there alone. Else a cell that isn't live is not ready, and is asked for as the strategy
    /// does.
    fn look(&mut self, cell: u32, budget: &mut Budget) -> Result<Look<Self::Held>, AcquireErr>
        requires cell { cell < cells_of (front.looker self.old).levels }
        requires room { held self.old < 64 }

        ensures looked { (events : List Event) × (calls : List Asked) × front.leads self.old events calls self.new × IsLook is_loaded (front.looker self.old) cell budget.old result budget.new events calls }
        ensures caused { IfErr result (λ err. front.caused self.old self.new cell err) }
        ensures ready { ForReady result (λ h. (cell_of h ≡ cell) × holds self.new h × (held self.new ≡ held self.old + 1)) }
        ensures not_live { ForNotReady result (λ state. state ≢ seen.Live) }
        ensures no_handle { OnNoHandle result (held self.new ≡ held self.old) }
        ensures kept { (h : Self.Held) → holds self.old h → holds self.new h };

    /// Pins a cell, which is loaded where it isn't live.
    fn acquire(&mut self, cell: u32) -> Result<Self::Held, AcquireErr>
        requires cell { cell < cells_of (front.looker self.old).levels }
        requires room { held self.old < 64 }

        ensures acquired { (events : List Event) × front.leads self.old events [] self.new × IsAcquired is_loaded (front.looker self.old).alone (front.looker self.old).pass cell result events }
        ensures caused { IfErr result (λ err. front.caused self.old self.new cell err) }
        ensures handle { IfOk result (λ h. (cell_of h ≡ cell) × holds self.new h × (held self.new ≡ held self.old + 1)) }
        ensures refused { OnErr result (held self.new ≡ held self.old) }
        ensures kept { (h : Self.Held) → holds self.old h → holds self.new h };

    /// Whether a cell was loaded for its handle.
    fn loaded(&self, handle: &Self::Held) -> bool
        requires { holds self.now handle.now }
        ensures { result ≡ is_loaded handle.now };

    /// The number of a voxel of a held cell.
    fn read(&mut self, handle: &Self::Held, at: u32) -> u64
        requires handle { holds self.old handle.now }
        requires inside { at < voxels_of (front.looker self.old).levels (cell_of handle.now) }

        ensures led { front.leads self.old (event.Read (front.looker self.old).pass (cell_of handle.now) at result ∷ []) [] self.new }
        ensures held { held self.new ≡ held self.old }
        ensures kept { (h : Self.Held) → holds self.old h → holds self.new h };

    /// Shows a run of pixels by voxels of a held cell: each pixel the number of the voxel where an offset walks to, one a column.
    fn show(
        &mut self,
        handle: &Self::Held,
        walk: OffsetWalk,
        shades: Shades,
        run: Run,
        picture: &mut Picture,
    )
        requires handle { holds self.old handle.now }
        requires run { IsRunOf picture.old run }
        requires offsets { (k : ℕ) → k < run.columns → LiesIn (offset_ahead walk k) 0 (voxels_of (front.looker self.old).levels (cell_of handle.now)) }

        ensures shown { ShowsCell front self.old (cell_of handle.now) walk shades run picture.old self.new picture.new }
        ensures held { held self.new ≡ held self.old }
        ensures kept { (h : Self.Held) → holds self.old h → holds self.new h };

    /// Gives a handle back. Another one on its cell stays.
    fn release(&mut self, handle: Self::Held)
        requires { holds self.old handle }

        ensures led { front.leads self.old (event.Unpin (front.looker self.old).pass (cell_of handle) ∷ []) [] self.new }
        ensures held { held self.old ≡ held self.new + 1 }
        ensures kept { (h : Self.Held) → (cell_of h ≢ cell_of handle) ⊎ (1 < front.pins self.old (cell_of handle)) → holds self.old h → holds self.new h };

    /// Takes the next request from the queue.
    fn next(&mut self) -> Option<Request>
        ensures led { front.leads self.old [] (asked call.Take (reply.Taken result) ∷ []) self.new }
        ensures inside { IfSome result (λ request. request.cell < cells_of (front.looker self.old).levels) }
        ensures held { held self.new ≡ held self.old }
        ensures kept { (h : Self.Held) → holds self.old h → holds self.new h };

    /// Nothing leads from a moment to itself, what leads on leads from where something led, the looker stays the
    /// same, and the pins are as the events make them.
    ghost laws: { IsFront front };
}
