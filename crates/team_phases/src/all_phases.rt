// Phases, one after another.
ghost use Rattle.std.specs.Prelude.{◌≡◌, ◌≤◌, ◌+◌, ◌++◌, All, List, length, sum_by, vec_capacity, vec_len};
ghost use Rattle.team_passes.specs.Teams.{cells_in, asks_in};
ghost use Rattle.team_phases.specs.declared.actor.PartDone.{PartDone};
ghost use Rattle.team_phases.specs.Playing.{IsStill, AreAllPlayed};
ghost use Rattle.team_phases.specs.Working.{IsTeamQueue};
ghost use Rattle.thread_plan.specs.Parts.{IsSceneDue};
ghost use Rattle.thread_plan.specs.Scenes.{flat};

use crate::actor::PartDone;
use crate::phase::play;
use cell_store::Store;
use live_cells::Cells;
use queue_desk::QueueDesk;
use std::alloc::Global;
use std::sync::Wait;
use std::thread::Threads;
use team_actors::Gate;
use team_passes::TeamPass;
use thread_plan::Scene;
use turn_cell::Turn;

/// Plays phases, one after another, each as `play` does. What their parts leave is added in their order.
pub fn play_all<S: Store + Send, R: Threads + Wait + Sync, G: Gate>(
    rt: &R,
    alloc: Global,
    cells: &Cells<S>,
    queue: &Turn<QueueDesk>,
    gate: &G,
    first: &mut TeamPass<S>,
    scenes: Vec<Scene>,
    fetchers: u32,
    done: &mut Vec<PartDone>,
)
    requires queue { IsTeamQueue cells.now queue.now }
    requires first { IsStill cells.now queue.now first.old }
    requires few { length scenes.items ≤ 1024 }
    requires few_fetchers { fetchers ≤ 16 }
    requires numbers { (cells_in first.old).drawn ≤ 1 }
    requires asks_numbers { (asks_in first.old).drawn ≤ 1 }
    requires due { All IsSceneDue scenes.items }
    requires room { vec_len done.old + sum_by (λ scene. length scene.parts.items) scenes.items ≤ vec_capacity done.old }
    ensures first { IsStill cells.now queue.now first.new }
    ensures played { (left : List (List PartDone)) × (done.new.items ≡ done.old.items ++ flat left) × AreAllPlayed S.contents cells.now fetchers first.old scenes.items left first.new }
{
    for scene in scenes {
        play(
            rt,
            alloc,
            cells,
            queue,
            gate,
            first,
            scene.parts,
            fetchers,
            done,
        );
    }
}
