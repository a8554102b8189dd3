// One phase: actors and fetchers at work together.
ghost use Rattle.std.specs.Prelude.{◌≡◌, ◌≤◌, ◌+◌, ◌^◌, ◌++◌, [], All, List, length, map, vec_capacity, vec_len};
ghost use Rattle.std.specs.List.{AllZip};
ghost use Rattle.team_passes.specs.Teams.{cells_in, asks_in, IsTeamPass, IsFirstPass, AreDrawn};
ghost use Rattle.team_phases.specs.declared.actor.PartDone.{PartDone};
ghost use Rattle.team_phases.specs.Playing.{IsStill, HasWorked, IsPhasePlayed};
ghost use Rattle.team_phases.specs.Working.{IsTeamQueue, IsReady, HasActed, HasFetched};
ghost use Rattle.thread_plan.specs.Parts.{IsPartDue};

use crate::actor::{Actor, PartDone};
use crate::crew::{Crew, dismiss, enlist, pair};
use crate::losing::lose_all;
use crate::threads::together;
use cell_store::Store;
use live_cells::Cells;
use queue_desk::QueueDesk;
use std::alloc::Global;
use std::sync::Wait;
use std::thread::Threads;
use team_actors::Gate;
use team_passes::{TeamPass, take_back};
use thread_plan::Part;
use turn_cell::Turn;

/// Plays a phase: each part by passes of its own on a thread of its own, beside so many fetchers. All are joined then, the actors'
/// passes first. What the parts leave is added in their order. Where the passes find no memory every command answers so, and none is
/// carried out.
pub fn play<S: Store + Send, R: Threads + Wait + Sync, G: Gate>(
    rt: &R,
    alloc: Global,
    cells: &Cells<S>,
    queue: &Turn<QueueDesk>,
    gate: &G,
    first: &mut TeamPass<S>,
    parts: Vec<Part>,
    fetchers: u32,
    done: &mut Vec<PartDone>,
)
    requires queue { IsTeamQueue cells.now queue.now }
    requires first { IsStill cells.now queue.now first.old }
    requires few { length parts.items ≤ 16 }
    requires few_fetchers { fetchers ≤ 16 }
    requires numbers { (cells_in first.old).drawn + 32 ≤ 2 ^ 31 }
    requires asks_numbers { (asks_in first.old).drawn + 32 ≤ 2 ^ 31 }
    requires due { All IsPartDue parts.items }
    requires room { vec_len done.old + length parts.items ≤ vec_capacity done.old }
    ensures first { IsStill cells.now queue.now first.new }
    ensures played { (left : List PartDone) × (done.new.items ≡ done.old.items ++ left) × IsPhasePlayed S.contents cells.now fetchers first.old parts.items left first.new }
    ensures count { vec_len done.new ≡ vec_len done.old + length parts.items }
    ensures capacity { vec_capacity done.old ≤ vec_capacity done.new }
{
    let actors = parts.len() as u32;
    match enlist(alloc, cells, queue, first, actors, fetchers) {
        Ok(crew) => work(rt, cells, queue, gate, first, parts, crew, done),
        Err(_) => lose_all(parts, done),
    }
}

/// Actors and fetchers work by the passes of a crew, which are joined then.
fn work<S: Store + Send, R: Threads + Wait + Sync, G: Gate>(
    rt: &R,
    cells: &Cells<S>,
    queue: &Turn<QueueDesk>,
    gate: &G,
    first: &mut TeamPass<S>,
    parts: Vec<Part>,
    crew: Crew<S>,
    done: &mut Vec<PartDone>,
)
    requires queue { IsTeamQueue cells.now queue.now }
    requires first { IsFirstPass cells.now queue.now first.old }
    requires own { All (IsTeamPass cells.now queue.now) crew.passes.items }
    requires enough { length parts.items ≤ length crew.passes.items }
    requires none { (crew.actors.items ≡ []) × (crew.fetchers.items ≡ []) }
    requires rooms { (length parts.items ≤ vec_capacity crew.actors) × (length crew.passes.items ≤ vec_capacity crew.fetchers) }
    requires due { All IsPartDue parts.items }
    requires room { vec_len done.old + length parts.items ≤ vec_capacity done.old }
    ensures first { IsFirstPass cells.now queue.now first.new }
    ensures worked { (left : List PartDone) × (done.new.items ≡ done.old.items ++ left) × HasWorked S.contents cells.now queue.now first.old parts.items crew.passes.items left first.new }
    ensures count { vec_len done.new ≡ vec_len done.old + length parts.items }
    ensures capacity { vec_capacity done.old ≤ vec_capacity done.new }
{
    let Crew {
        passes,
        mut actors,
        fetchers: mut others,
    } = crew;
    pair(parts, passes, &mut actors, &mut others);
    begin(rt, cells, queue, gate, &mut actors, &mut others);
    dismiss(cells, queue, first, actors, done);
    take_back(cells, queue, first, others);
}

fn begin<S: Store + Send, R: Threads + Wait + Sync, G: Gate>(
    rt: &R,
    cells: &Cells<S>,
    queue: &Turn<QueueDesk>,
    gate: &G,
    actors: &mut Vec<Actor<S>>,
    fetchers: &mut Vec<TeamPass<S>>,
)
    requires queue { IsTeamQueue cells.now queue.now }
    requires actors { All (IsReady cells.now queue.now) actors.old.items }
    requires fetchers { All (IsTeamPass cells.now queue.now) fetchers.old.items }
    ensures acted { AllZip (HasActed S.contents cells.now queue.now) actors.old.items actors.new.items }
    ensures fetched { AllZip (HasFetched S.contents cells.now queue.now) fetchers.old.items fetchers.new.items }
{
    together(
        rt,
        cells,
        queue,
        gate,
        actors.as_mut_slice(),
        fetchers.as_mut_slice(),
    );
}
