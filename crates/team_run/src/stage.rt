// What is set up before the first command of a run.
ghost use Rattle.std.specs.Prelude.{◌≡◌, IfOk, IfSome, count_by, ◌<◌};
ghost use Rattle.view_script.specs.Script.{IsScript};
ghost use Rattle.cell_grid.specs.Pyramid.{IsPyramid};
ghost use Rattle.team_run.specs.Desk.{first_queue};
ghost use Rattle.team_run.specs.Range.{top_for};
ghost use Rattle.team_run.specs.Stage.{IsSetUp};
ghost use Rattle.team_run.specs.Task.{is_view};

use crate::plan::plan;
use crate::task::{Due, Task};
use cell_grid::Geometry;
use fetch_queue::Queues;
use run_report::{Reply, Shot};
use std::alloc::{AllocError, Global};
use view_script::Script;

/// How many viewers a queue has: one for each actor of a phase.
const VIEWERS: u32 = 16;

/// The most cells that are prefetched.
const PREFETCH: u32 = 256;

/// What is set up before the first command: the queue, what is due, and room for the replies and the shots.
#[derive(Drop)]
pub struct Stage {
    pub queue: Queues,
    pub plan: Vec<Due>,
    pub replies: Vec<Reply>,
    pub shots: Vec<Shot>,
}

/// Takes all memory that a script's run takes besides its cache.
pub fn set_up(alloc: Global, geometry: &Geometry, script: Script) -> Result<Stage, AllocError>
    requires { IsScript script }
    ensures { IfOk result (IsSetUp geometry.now script) }
{
    let queue = empty_queue(alloc, geometry)?;
    let top = top_for(geometry, script.range);
    let plan = plan(alloc, top, script.phases)?;
    let replies = Vec::with_capacity(alloc, plan.len())?;
    let shots = Vec::with_capacity(alloc, view_count(&plan))?;
    Ok(Stage {
        queue,
        plan,
        replies,
        shots,
    })
}

/// The queue of a run before its first command.
pub fn empty_queue(alloc: Global, geometry: &Geometry) -> Result<Queues, AllocError>
    ensures queue { IfOk result (λ queue. queue ≡ first_queue geometry.now) }
    ensures pyramid { IfOk result (λ _. IsPyramid geometry.now) }
{
    Queues::new(
        alloc,
        VIEWERS,
        geometry.cells(),
        geometry.levels(),
        PREFETCH,
    )
}

/// The value up to which views show, where they have no range of their own: the greatest of the first level's kind.
pub fn top_for(geometry: &Geometry, range: Option<[u64; 2]>) -> Option<u64>
    ensures top { result ≡ top_for range geometry.now }
    ensures positive { IfSome result (λ top. 0 < top) }
{
    let _levels = geometry.levels(); // read for what its contract tells the proof
    match range {
        Some(_) => None,
        None => Some(geometry.level(0).kind.greatest()),
    }
}

/// How many tasks are views.
pub fn view_count(plan: &[Due]) -> usize
    ensures { result ≡ count_by (λ d. is_view d.task) plan.now }
{
    plan.iter().filter(|due| is_view(&due.task)).count()
}

fn is_view(task: &Task) -> bool
    ensures { result ≡ is_view task.now }
{
    matches!(task, Task::View { .. })
}
