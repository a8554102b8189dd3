// What is due in a run by threads, phase by phase and actor by actor, with all the memory that its replies and pictures take.
ghost use Rattle.std.specs.Prelude.{◌≡◌, ◌<◌, ◌≤◌, ◌^◌, All, IfOk, IfSome, length, map, sum_by};
ghost use Rattle.view_script.specs.Script.{IsWithinLimits, command_count, commands_of_actor};
ghost use Rattle.team_run.specs.Range.{ranged};
ghost use Rattle.thread_plan.specs.Counts.{parts_of, tasks_of, views_of};
ghost use Rattle.thread_plan.specs.Parts.{IsPartDue, IsSceneDue, commands_in, commands_in_scene};
ghost use Rattle.thread_plan.specs.Scenes.{scene_of, scenes_of};

use crate::part::{Part, Scene};
use plain_data::Items;
use std::alloc::{AllocError, Global};
use team_run::{plan_actor, view_count};
use view_script::Command;

/// The parts of a script's actors, phase by phase. Views show 0 to a value, where one is given.
pub fn plan_scenes(
    alloc: Global,
    top: Option<u64>,
    phases: Items<Items<Items<Command>>>,
) -> Result<Vec<Scene>, AllocError>
    requires top { IfSome top (λ value. 0 < value) }
    requires phases { length phases ≤ 1024 }
    requires actors { All (λ actors. length actors ≤ 16) phases }
    requires few { command_count phases ≤ 2 ^ 20 }
    requires limits { All (All (All IsWithinLimits)) phases }
    ensures planned { IfOk result (λ scenes. map commands_in_scene scenes.items ≡ scenes_of (map (map (map (ranged top))) phases)) }
    ensures due { IfOk result (λ scenes. All IsSceneDue scenes.items) }
    ensures count { IfOk result (λ scenes. length scenes.items ≡ length phases) }
    ensures few_tasks { IfOk result (λ scenes. sum_by tasks_of scenes.items ≤ 2 ^ 20) }
    ensures few_views { IfOk result (λ scenes. sum_by views_of scenes.items ≤ 2 ^ 20) }
    ensures few_parts { IfOk result (λ scenes. sum_by parts_of scenes.items ≤ 2 ^ 20) }
{
    let mut scenes = Vec::new(alloc);
    for (phase, actors) in phases.into_vec().into_iter().enumerate() {
        let scene = plan_scene(alloc, top, phase as u32, actors)?;
        scenes.push(scene)?;
    }
    Ok(scenes)
}

/// The parts of a phase's actors.
fn plan_scene(
    alloc: Global,
    top: Option<u64>,
    phase: u32,
    actors: Items<Items<Command>>,
) -> Result<Scene, AllocError>
    requires top { IfSome top (λ value. 0 < value) }
    requires actors { length actors ≤ 16 }
    requires few { sum_by length actors ≤ 2 ^ 20 }
    requires limits { All (All IsWithinLimits) actors }
    ensures planned { IfOk result (λ scene. commands_in_scene scene ≡ scene_of phase (map (map (ranged top)) actors)) }
    ensures due { IfOk result IsSceneDue }
{
    let mut parts = Vec::new(alloc);
    for (actor, commands) in actors.into_vec().into_iter().enumerate() {
        let part = plan_part(alloc, top, phase, actor as u32, commands)?;
        parts.push(part)?;
    }
    Ok(Scene { parts })
}

/// The part of an actor of a phase.
fn plan_part(
    alloc: Global,
    top: Option<u64>,
    phase: u32,
    actor: u32,
    commands: Items<Command>,
) -> Result<Part, AllocError>
    requires top { IfSome top (λ value. 0 < value) }
    requires actor { actor < 16 }
    requires few { length commands ≤ 2 ^ 20 }
    requires limits { All IsWithinLimits commands }
    ensures planned { IfOk result (λ part. commands_in part ≡ commands_of_actor phase actor (map (ranged top) commands)) }
    ensures due { IfOk result IsPartDue }
{
    let mut tasks = Vec::new(alloc);
    plan_actor(alloc, top, phase, actor, commands, &mut tasks)?;
    let replies = Vec::with_capacity(alloc, tasks.len())?;
    let shots = Vec::with_capacity(alloc, view_count(&tasks))?;
    Ok(Part {
        tasks,
        replies,
        shots,
    })
}
