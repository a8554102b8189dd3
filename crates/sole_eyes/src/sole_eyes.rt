// Eyes over the cache of one thread.
ghost use Rattle.std.specs.Prelude.{◌≡◌, ◌<◌, false, length};
ghost use Rattle.cell_grid.specs.Pyramid.{cells_of};
ghost use Rattle.fetch_queue.specs.Queue.{pair, put_request};
ghost use Rattle.volatile_cell.specs.Requests.{IsQueueFor, priority_of};

use cell_file::AcquireErr;
use cell_grid::Geometry;
use cell_store::Store;
use fetch_queue::{Queues, Request};
use scale_pick::{Picture, Run, Shades};
use sole_cache::{SoleCache, SoleHandle};
use volatile_cell::{Budget, Eyes, Look, hints};
use whole_affine::OffsetWalk;

/// Eyes over the cache of one thread and a queue, for one viewer.
#[derive(Drop)]
pub struct SoleEyes<'a, S: Store> {
    cache: &'a mut SoleCache<S>,
    queue: &'a mut Queues,
    viewer: u32,
    ghost cells: { queue.now.cells ≡ cells_of cache.now.levels },
    ghost priorities: { length queue.now.lists ≡ length cache.now.levels },
    ghost viewed: { viewer < queue.now.viewers },
}

impl<'a, S: Store> SoleEyes<'a, S> {
    ghost use Rattle.std.specs.Prelude.{◌≡◌, ◌<◌};
    ghost use Rattle.sole_cache.specs.Cached.{handles_out};

    /// Eyes over a cache and a queue. They take no memory.
    pub fn new(cache: &'a mut SoleCache<S>, queue: &'a mut Queues, viewer: u32) -> SoleEyes<'a, S>
        requires free { handles_out cache.old ≡ 0 }
        requires viewer { viewer < queue.old.viewers }
        requires queue { IsQueueFor queue.old cache.old.levels }
        ensures same_cache { result.cache.ghost_name ≡ cache.entry.ghost_name }
        ensures cache { result.cache.now ≡ cache.old }
        ensures same_queue { result.queue.ghost_name ≡ queue.entry.ghost_name }
        ensures queue { result.queue.now ≡ queue.old }
        ensures viewer { result.viewer ≡ viewer }
    {
        SoleEyes {
            cache,
            queue,
            viewer,
        }
    }
}

impl<'a, S: Store> Eyes for SoleEyes<'a, S> {
    type Held = SoleHandle;

    ghost use Rattle.std.specs.Prelude.{◌≡◌};
    ghost use Rattle.std.proofs.Common.{refl, sym, ◌∙◌};
    ghost use Rattle.sole_cache.specs.Cached.{handles_out, state_of};
    ghost use Rattle.sole_cache.specs.Handle.{IsHandleOf};
    ghost use Rattle.volatile_cell.proofs.Pins.{pins_are};
    ghost use Rattle.volatile_cell.specs.Asked.{AskedFrom};
    ghost use Rattle.sole_eyes.specs.SoleEyes.{EyesLead, IsRefusal, sole};
    ghost use Rattle.sole_eyes.specs.SoleLaws.{eyes_nowhere, eyes_after, same_sole};
    ghost use Rattle.volatile_cell.proofs.Asking.{asked_after};

    ghost front = { record {
      looker = λ e. sole e.viewer e.cache.now.levels;
      pins = λ e c. (state_of e.cache.now).pins 0 c;
      leads = λ a p u b. (a.cache.ghost_name ≡ b.cache.ghost_name) × (a.queue.ghost_name ≡ b.queue.ghost_name) × (a.viewer ≡ b.viewer) × EyesLead a.cache.now p b.cache.now × AskedFrom a.queue.now u b.queue.now;
      caused = λ a b cell err. IsRefusal a.cache.now b.cache.now cell err;
    } };

    ghost held = { λ e. handles_out e.cache.now };

    ghost holds = { λ e h. IsHandleOf e.cache.now h };

    ghost cell_of = { λ h. h.cell };

    ghost is_loaded = { λ h. h.loaded };

    ghost laws = { record {
      stays = λ e. (refl, refl, refl, eyes_nowhere e.cache.now, refl);
      leads_on = λ a b c p q u v g h. (g.0 ∙ h.0, g.1 ∙ h.1, g.2 ∙ h.2, eyes_after a.cache.now b.cache.now c.cache.now p q g.3 h.3, asked_after a.queue.now b.queue.now c.queue.now u v g.4 h.4);
      same = λ a b p u g. same_sole a.viewer b.viewer a.cache.now.levels b.cache.now.levels g.2 (sym g.3.leads.moves.levels);
      counted = λ a b p u g c. sym (g.3.leads.moves.led.reached.pins 0 c) ∙ pins_are (state_of a.cache.now) 0 c p;
    } };

    fn geometry(&self) -> &Geometry {
        self.cache.geometry()
    }

    fn begin(&mut self) -> u32 {
        self.queue.clear(self.viewer)
    }

    fn look(&mut self, cell: u32, budget: &mut Budget) -> Result<Look<SoleHandle>, AcquireErr> {
        if budget.loads() {
            return match self.acquire(cell) {
                Err(refusal) => Err(refusal),
                Ok(handle) => {
                    budget.spend(handle.loaded());
                    Ok(Look::Ready(handle))
                }
            };
        }
        match self.cache.look(cell) {
            Ok(handle) => Ok(Look::Ready(handle)),
            Err(state) => {
                if budget.asks() {
                    ask(self.queue, self.cache.geometry(), self.viewer, cell);
                }
                Ok(Look::NotReady { state })
            }
        }
    }

    fn acquire(&mut self, cell: u32) -> Result<SoleHandle, AcquireErr> {
        self.cache.acquire(cell)
    }

    fn loaded(&self, handle: &SoleHandle) -> bool {
        handle.loaded()
    }

    fn read(&mut self, handle: &SoleHandle, at: u32) -> u64 {
        self.cache.read(handle, at)
    }

    fn show(
        &mut self,
        handle: &SoleHandle,
        walk: OffsetWalk,
        shades: Shades,
        run: Run,
        picture: &mut Picture,
    ) {
        picture.show(run, self.cache.frame(handle), walk, shades);
    }

    fn release(&mut self, handle: SoleHandle) {
        self.cache.release(handle);
    }

    fn next(&mut self) -> Option<Request> {
        self.queue.take()
    }
}

/// Asks for a cell: its request goes to the back of the priority of its level.
fn ask(queue: &mut Queues, geometry: &Geometry, viewer: u32, cell: u32)
    requires viewer { viewer < queue.old.viewers }
    requires queue { IsQueueFor queue.old geometry.now }
    requires cell { cell < cells_of geometry.now }
    ensures { queue.new ≡ put_request queue.old (pair viewer cell) (priority_of geometry.now cell) false }
{
    let hints = hints(geometry, cell);
    queue.put(viewer, cell, hints.priority, hints.to_front);
}
