// What is set up before the first command of a run by threads.
ghost use Rattle.std.specs.Prelude.{IfOk};
ghost use Rattle.view_script.specs.Script.{IsScript};
ghost use Rattle.thread_run.specs.Stage.{IsSetUp, Plans};

use cell_grid::Geometry;
use queue_desk::QueueDesk;
use run_report::{Reply, Shot};
use std::alloc::{AllocError, Global};
use team_phases::PartDone;
use team_run::{empty_queue, top_for};
use thread_plan::{Scene, part_count, plan_scenes, shot_count, task_count};
use turn_cell::{Turn, TurnPass};
use view_script::Script;

/// What is set up before the first command: the queue behind its turn, and what is planned.
pub(crate) struct Stage {
    pub(crate) queue: Turn<QueueDesk>,
    pub(crate) asks: TurnPass<QueueDesk>,
    pub(crate) plan: Plan,
}

/// The parts of the actors, phase by phase, and room for what they leave.
#[derive(Drop)]
pub(crate) struct Plan {
    pub(crate) scenes: Vec<Scene>,
    pub(crate) done: Vec<PartDone>,
    pub(crate) replies: Vec<Reply>,
    pub(crate) shots: Vec<Shot>,
}

/// Takes all memory that a script's run takes besides its cells and their passes.
pub(crate) fn set_up(
    alloc: Global,
    geometry: &Geometry,
    script: Script,
) -> Result<Stage, AllocError>
    requires { IsScript script }
    ensures { IfOk result (IsSetUp geometry.now script) }
{
    let plan = plan_all(alloc, geometry, script)?;
    let queue = empty_queue(alloc, geometry)?;
    match Turn::new(alloc, QueueDesk::new(queue)) {
        Ok((queue, asks)) => Ok(Stage { queue, asks, plan }),
        Err(_) => Err(AllocError),
    }
}

/// Plans a script over a volume.
fn plan_all(alloc: Global, geometry: &Geometry, script: Script) -> Result<Plan, AllocError>
    requires { IsScript script }
    ensures { IfOk result (Plans geometry.now script) }
{
    let top = top_for(geometry, script.range);
    let scenes = plan_scenes(alloc, top, script.phases)?;
    let done = Vec::with_capacity(alloc, part_count(&scenes))?;
    let replies = Vec::with_capacity(alloc, task_count(&scenes))?;
    let shots = Vec::with_capacity(alloc, shot_count(&scenes))?;
    Ok(Plan {
        scenes,
        done,
        replies,
        shots,
    })
}
