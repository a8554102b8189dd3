// The passes of a phase: drawn all at first, given to its parts, and joined again.
ghost use Rattle.std.specs.Prelude.{◌≡◌, ◌+◌, ◌<◌, ◌≤◌, ◌++◌, ◌∷◌, [], All, IfOk, OnErr, length, map, vec_capacity, vec_len};
ghost use Rattle.team_passes.specs.Teams.{IsTeamPass, IsFirstPass, MayDraw, AreDrawn, AreTakenIn};
ghost use Rattle.team_phases.specs.Playing.{IsBackIdle};
ghost use Rattle.team_phases.specs.Working.{pass_in, part_in, done_in};

use crate::actor::{Actor, PartDone};
use crate::losing::add_done;
use cell_store::Store;
use live_cells::{Cells, Memory};
use queue_desk::QueueDesk;
use std::alloc::Global;
use team_passes::{TeamPass, add_pass, draw, join_pass, take_back};
use thread_plan::Part;
use turn_cell::Turn;

/// The passes of a phase, and room to give them to its parts.
#[derive(Drop)]
pub(crate) struct Crew<S> {
    pub(crate) passes: Vec<TeamPass<S>>,
    pub(crate) actors: Vec<Actor<S>>,
    pub(crate) fetchers: Vec<TeamPass<S>>,
}

/// Draws the passes of a phase. Where memory is wanting, those that were drawn are joined again.
pub(crate) fn enlist<S: Store>(
    alloc: Global,
    cells: &Cells<S>,
    queue: &Turn<QueueDesk>,
    first: &mut TeamPass<S>,
    actors: u32,
    fetchers: u32,
) -> Result<Crew<S>, Memory>
    requires first { IsFirstPass cells.now queue.now first.old }
    requires few { actors + fetchers ≤ 32 }
    requires room { MayDraw (actors + fetchers) first.old }
    ensures first { IsFirstPass cells.now queue.now first.new }
    ensures drawn { IfOk result (λ crew. AreDrawn cells.now queue.now first.old crew.passes.items first.new) }
    ensures count { IfOk result (λ crew. length crew.passes.items ≡ actors + fetchers) }
    ensures none { IfOk result (λ crew. (crew.actors.items ≡ []) × (crew.fetchers.items ≡ [])) }
    ensures rooms { IfOk result (λ crew. (actors ≤ vec_capacity crew.actors) × (actors + fetchers ≤ vec_capacity crew.fetchers)) }
    ensures idle { OnErr result (IsBackIdle cells.now queue.now first.old first.new) }
{
    let count = actors + fetchers;
    let mut passes = Vec::with_capacity(alloc, count as usize)?;
    let room = Vec::with_capacity(alloc, actors as usize)?;
    let rest = Vec::with_capacity(alloc, count as usize)?;
    match draw(cells, queue, first, count, &mut passes) {
        Ok(()) => Ok(Crew {
            passes,
            actors: room,
            fetchers: rest,
        }),
        Err(err) => {
            take_back(cells, queue, first, passes);
            Err(err)
        }
    }
}

/// Gives each part the next pass, in order, and the passes that are left to the fetchers.
pub(crate) fn pair<S>(
    parts: Vec<Part>,
    passes: Vec<TeamPass<S>>,
    actors: &mut Vec<Actor<S>>,
    fetchers: &mut Vec<TeamPass<S>>,
)
    requires enough { length parts.items ≤ length passes.items }
    requires no_actors { actors.old.items ≡ [] }
    requires no_fetchers { fetchers.old.items ≡ [] }
    requires actor_room { length parts.items ≤ vec_capacity actors.old }
    requires fetcher_room { length passes.items ≤ vec_capacity fetchers.old }
    ensures parts { map part_in actors.new.items ≡ parts.items }
    ensures passes { map pass_in actors.new.items ++ fetchers.new.items ≡ passes.items }
{
    let mut passes = passes.into_iter();
    for part in parts {
        let Some(pass) = passes.next() else {
            unreachable!()
        };
        add_actor(actors, Actor { pass, part });
    }
    for pass in passes {
        add_pass(fetchers, pass);
    }
}

fn add_actor<S>(actors: &mut Vec<Actor<S>>, actor: Actor<S>)
    requires room { vec_len actors.old < vec_capacity actors.old }
    ensures added { actors.new.items ≡ actors.old.items ++ actor ∷ [] }
    ensures capacity { vec_capacity actors.old ≤ vec_capacity actors.new }
{
    let _ = actors.push(actor);
}

/// Joins the actors' passes, in order, and adds what they leave.
pub(crate) fn dismiss<S: Store>(
    cells: &Cells<S>,
    queue: &Turn<QueueDesk>,
    first: &mut TeamPass<S>,
    actors: Vec<Actor<S>>,
    done: &mut Vec<PartDone>,
)
    requires first { IsFirstPass cells.now queue.now first.old }
    requires own { All (λ a. IsTeamPass cells.now queue.now (pass_in a)) actors.items }
    requires room { vec_len done.old + length actors.items ≤ vec_capacity done.old }
    ensures first { IsFirstPass cells.now queue.now first.new }
    ensures joined { AreTakenIn first.old (map pass_in actors.items) first.new }
    ensures done { done.new.items ≡ done.old.items ++ map done_in actors.items }
    ensures count { vec_len done.new ≡ vec_len done.old + length actors.items }
    ensures capacity { vec_capacity done.old ≤ vec_capacity done.new }
{
    for actor in actors {
        let Actor { pass, part } = actor;
        let Part {
            tasks: _,
            replies,
            shots,
        } = part;
        join_pass(cells, queue, first, pass);
        add_done(done, PartDone { replies, shots });
    }
}
