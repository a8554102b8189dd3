// What is due in a run, in order, with all the memory that its pictures take.
ghost use Rattle.std.specs.Prelude.{◌≡◌, ◌<◌, ◌≤◌, ◌^◌, ◌++◌, All, IfOk, IfSome, OnOk, length, map, sum_by};
ghost use Rattle.view_script.specs.Script.{IsWithinLimits, IsViewWithinLimits, command_count, commands_of_actor, commands_of_phase};
ghost use Rattle.team_run.specs.Range.{commands_of_phases, ranged, shown_to};
ghost use Rattle.team_run.specs.Task.{IsDue, HasPicture, command_in, numbered};

use crate::task::{Due, Task};
use plain_data::Items;
use scale_pick::{Picture, View};
use std::alloc::{AllocError, Global};
use view_script::Command;

/// The tasks of phases, in order of phase, actor and call. Views show 0 to a value, where one is given.
pub fn plan(
    alloc: Global,
    top: Option<u64>,
    phases: Items<Items<Items<Command>>>,
) -> Result<Vec<Due>, AllocError>
    requires top { IfSome top (λ value. 0 < value) }
    requires phases { length phases ≤ 1024 }
    requires actors { All (λ actors. length actors ≤ 16) phases }
    requires few { command_count phases ≤ 2 ^ 20 }
    requires limits { All (All (All IsWithinLimits)) phases }
    ensures planned { IfOk result (λ plan. map numbered plan.items ≡ commands_of_phases (map (map (map (ranged top))) phases)) }
    ensures due { IfOk result (λ plan. All IsDue plan.items) }
{
    let mut plan = Vec::new(alloc);
    for (phase, actors) in phases.into_vec().into_iter().enumerate() {
        plan_phase(alloc, top, phase as u32, actors, &mut plan)?;
    }
    Ok(plan)
}

/// Adds the tasks of a phase's actors.
fn plan_phase(
    alloc: Global,
    top: Option<u64>,
    phase: u32,
    actors: Items<Items<Command>>,
    plan: &mut Vec<Due>,
) -> Result<(), AllocError>
    requires top { IfSome top (λ value. 0 < value) }
    requires actors { length actors ≤ 16 }
    requires few { sum_by length actors ≤ 2 ^ 20 }
    requires limits { All (All IsWithinLimits) actors }
    requires due { All IsDue plan.old.items }
    ensures planned { OnOk result (map numbered plan.new.items ≡ map numbered plan.old.items ++ commands_of_phase phase (map (map (ranged top)) actors)) }
    ensures due { OnOk result (All IsDue plan.new.items) }
{
    for (actor, commands) in actors.into_vec().into_iter().enumerate() {
        plan_actor(alloc, top, phase, actor as u32, commands, plan)?;
    }
    Ok(())
}

/// Adds the tasks of an actor of a phase. Views show 0 to a value, where one is given.
pub fn plan_actor(
    alloc: Global,
    top: Option<u64>,
    phase: u32,
    actor: u32,
    commands: Items<Command>,
    plan: &mut Vec<Due>,
) -> Result<(), AllocError>
    requires top { IfSome top (λ value. 0 < value) }
    requires actor { actor < 16 }
    requires few { length commands ≤ 2 ^ 20 }
    requires limits { All IsWithinLimits commands }
    requires due { All IsDue plan.old.items }
    ensures planned { OnOk result (map numbered plan.new.items ≡ map numbered plan.old.items ++ commands_of_actor phase actor (map (ranged top) commands)) }
    ensures due { OnOk result (All IsDue plan.new.items) }
{
    for (call, command) in commands.into_vec().into_iter().enumerate() {
        let task = task_of(alloc, top, command)?;
        let due = Due {
            phase,
            actor,
            call: call as u32,
            task,
        };
        plan.push(due)?;
    }
    Ok(())
}

/// The task that a command is.
fn task_of(alloc: Global, top: Option<u64>, command: Command) -> Result<Task, AllocError>
    requires top { IfSome top (λ value. 0 < value) }
    requires limits { IsWithinLimits command }
    ensures command { IfOk result (λ task. command_in task ≡ ranged top command) }
    ensures limits { IfOk result (λ task. IsWithinLimits (command_in task)) }
    ensures picture { IfOk result (λ task. HasPicture task) }
{
    match command {
        Command::Get { level, pos } => Ok(Task::Get { level, pos }),
        Command::Set { level, pos, value } => Ok(Task::Set { level, pos, value }),
        Command::View { name, view } => {
            let picture = Picture::new(alloc, view.width, view.height)?;
            let view = shown_to(top, view);
            Ok(Task::View {
                name,
                view,
                picture,
            })
        }
        Command::Fetch { count } => Ok(Task::Fetch { count }),
    }
}

/// The view that shows 0 to a value, where one is given.
fn shown_to(top: Option<u64>, view: View) -> View
    requires top { IfSome top (λ value. 0 < value) }
    requires limits { IsViewWithinLimits view }
    ensures view { result ≡ shown_to top view }
    ensures limits { IsViewWithinLimits result }
{
    match top {
        None => view,
        Some(top) => View {
            low: 0,
            high: top,
            ..view
        },
    }
}
