// Eyes over cells that threads share.
ghost use Rattle.std.specs.Prelude.{◌<◌};
ghost use Rattle.turn_cell.specs.Turn.{opened_at, IsPassOf};
ghost use Rattle.pin_rule.specs.Calls.{made_of};
ghost use Rattle.volatile_cell.specs.Requests.{IsQueueFor};
ghost use Rattle.live_cells.specs.Cells.{table, knows, IsCellPassOf};
ghost use Rattle.live_cells.proofs.Once.{once};
ghost use Rattle.team_eyes.specs.Holding.{HoldsStill};

use crate::steps;
use cell_file::AcquireErr;
use cell_grid::Geometry;
use cell_store::Store;
use fetch_queue::Request;
use live_cells::{CellPass, Cells};
use pin_rule::Handle;
use queue_desk::{QueueDesk, clear, take};
use scale_pick::{Picture, Run, Shades};
use std::sync::Wait;
use turn_cell::{Turn, TurnPass};
use volatile_cell::{Budget, Eyes, Look};
use whole_affine::OffsetWalk;

/// Eyes over shared cells and a shared queue, for one viewer. Each thread has eyes of its own. Their calls may wait for other passes.
#[derive(Drop)]
pub struct TeamEyes<'a, S: Store, R: Wait> {
    rt: &'a R,
    cells: &'a Cells<S>,
    pass: &'a mut CellPass<S>,
    queue: &'a Turn<QueueDesk>,
    asks: &'a mut TurnPass<QueueDesk>,
    viewer: u32,
    ghost own: { IsCellPassOf cells.now pass.now } by { once S.code cells.now pass.now },
    ghost still: { HoldsStill (knows pass.now) },
    ghost asking: { IsPassOf queue.now asks.now },
    ghost fits: { IsQueueFor (opened_at queue.now) (made_of (table cells.now)).levels.value },
    ghost viewed: { viewer < (opened_at queue.now).viewers },
}

impl<'a, S: Store, R: Wait> TeamEyes<'a, S, R> {
    ghost use Rattle.std.specs.Prelude.{◌≡◌, ◌<◌, []};
    ghost use Rattle.turn_cell.specs.Turn.{opened_at, IsPassOf};
    ghost use Rattle.pin_rule.specs.Calls.{made_of};
    ghost use Rattle.volatile_cell.specs.Requests.{IsQueueFor};
    ghost use Rattle.live_cells.specs.Cells.{table, knows, IsCellPassOf};

    /// Eyes over cells and a queue, by a pass of each. They take no memory.
    pub fn new(
        rt: &'a R,
        cells: &'a Cells<S>,
        pass: &'a mut CellPass<S>,
        queue: &'a Turn<QueueDesk>,
        asks: &'a mut TurnPass<QueueDesk>,
        viewer: u32,
    ) -> TeamEyes<'a, S, R>
        requires pass { IsCellPassOf cells.now pass.old }
        requires free { (knows pass.old).pins ≡ [] }
        requires asks { IsPassOf queue.now asks.old }
        requires queue { IsQueueFor (opened_at queue.now) (made_of (table cells.now)).levels.value }
        requires viewer { viewer < (opened_at queue.now).viewers }
        ensures cells { result.cells.now ≡ cells.now }
        ensures same_pass { result.pass.ghost_name ≡ pass.entry.ghost_name }
        ensures pass { result.pass.now ≡ pass.old }
        ensures queue { result.queue.now ≡ queue.now }
        ensures same_asks { result.asks.ghost_name ≡ asks.entry.ghost_name }
        ensures asks { result.asks.now ≡ asks.old }
        ensures viewer { result.viewer ≡ viewer }
    {
        TeamEyes {
            rt,
            cells,
            pass,
            queue,
            asks,
            viewer,
        }
    }
}

impl<'a, S: Store, R: Wait> Eyes for TeamEyes<'a, S, R> {
    type Held = Handle;

    ghost use Rattle.std.specs.Prelude.{◌≡◌, length};
    ghost use Rattle.std.proofs.Common.{refl, ◌∙◌};
    ghost use Rattle.turn_cell.specs.Turn.{view};
    ghost use Rattle.pin_words.specs.Words.{times};
    ghost use Rattle.pin_rule.specs.Calls.{made_of};
    ghost use Rattle.live_cells.specs.Cells.{table, knows, IsHandleOf};
    ghost use Rattle.team_eyes.specs.Teammate.{looker_of, teammate_at, TeamLeads, IsTeamRefusal};
    ghost use Rattle.team_eyes.specs.TeammateLaws.{team_still, team_on, same_team};

    ghost front = { record {
      looker = λ e. looker_of (knows e.pass.now).number e.viewer (made_of (table e.cells.now)).levels.value;
      pins = λ e c. times c (knows e.pass.now).pins;
      leads = λ a p u b. (a.pass.ghost_name ≡ b.pass.ghost_name) × (a.asks.ghost_name ≡ b.asks.ghost_name) × (a.cells.now ≡ b.cells.now) × (a.queue.now ≡ b.queue.now) × TeamLeads (teammate_at S.contents a.cells.now a.viewer a.pass.now (view a.asks.now)) p u (teammate_at S.contents b.cells.now b.viewer b.pass.now (view b.asks.now));
      caused = λ a b cell err. IsTeamRefusal (teammate_at S.contents a.cells.now a.viewer a.pass.now (view a.asks.now)) (teammate_at S.contents b.cells.now b.viewer b.pass.now (view b.asks.now)) cell err;
    } };

    ghost held = { λ e. length (knows e.pass.now).pins };

    ghost holds = { λ e h. IsHandleOf e.cells.now e.pass.now h };

    ghost cell_of = { λ h. h.cell };

    ghost is_loaded = { λ h. h.loaded };

    ghost laws = { record {
      stays = λ e. (refl, refl, refl, refl, team_still (teammate_at S.contents e.cells.now e.viewer e.pass.now (view e.asks.now)));
      leads_on = λ a b c p q u v g h. (g.0 ∙ h.0, g.1 ∙ h.1, g.2 ∙ h.2, g.3 ∙ h.3, team_on (teammate_at S.contents a.cells.now a.viewer a.pass.now (view a.asks.now)) (teammate_at S.contents b.cells.now b.viewer b.pass.now (view b.asks.now)) (teammate_at S.contents c.cells.now c.viewer c.pass.now (view c.asks.now)) p q u v g.4 h.4);
      same = λ a b p u g. same_team (teammate_at S.contents a.cells.now a.viewer a.pass.now (view a.asks.now)) (teammate_at S.contents b.cells.now b.viewer b.pass.now (view b.asks.now)) p u g.4;
      counted = λ a b p u g c. g.4.cells.pinned c;
    } };

    fn geometry(&self) -> &Geometry {
        self.cells.geometry()
    }

    fn begin(&mut self) -> u32 {
        clear(self.rt, self.queue, self.asks, self.viewer)
    }

    fn look(&mut self, cell: u32, budget: &mut Budget) -> Result<Look<Handle>, AcquireErr> {
        if budget.loads() {
            return match self.acquire(cell) {
                Err(refusal) => Err(refusal),
                Ok(handle) => {
                    budget.spend(handle.loaded());
                    Ok(Look::Ready(handle))
                }
            };
        }
        match steps::look(self.cells, self.pass, cell) {
            Ok(handle) => Ok(Look::Ready(handle)),
            Err(refused) => {
                if budget.asks() {
                    steps::ask(
                        self.rt,
                        self.cells.geometry(),
                        self.queue,
                        self.asks,
                        self.viewer,
                        cell,
                    );
                }
                Ok(Look::NotReady {
                    state: refused.state,
                })
            }
        }
    }

    fn acquire(&mut self, cell: u32) -> Result<Handle, AcquireErr> {
        steps::acquire(self.rt, self.cells, self.pass, cell)
    }

    fn loaded(&self, handle: &Handle) -> bool {
        handle.loaded()
    }

    fn read(&mut self, handle: &Handle, at: u32) -> u64 {
        steps::read(self.cells, self.pass, handle, at)
    }

    fn show(
        &mut self,
        handle: &Handle,
        walk: OffsetWalk,
        shades: Shades,
        run: Run,
        picture: &mut Picture,
    ) {
        steps::show(self.cells, self.pass, handle, walk, shades, run, picture);
    }

    fn release(&mut self, handle: Handle) {
        steps::release(self.cells, self.pass, handle);
    }

    fn next(&mut self) -> Option<Request> {
        take(self.rt, self.queue, self.asks)
    }
}
