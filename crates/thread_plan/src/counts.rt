// How many parts, tasks and views a run has.
ghost use Rattle.std.specs.Prelude.{◌≡◌, ◌^◌, ◌≤◌, length, sum_by};
ghost use Rattle.thread_plan.specs.Counts as counts;
ghost use Rattle.thread_plan.specs.Counts.{parts_of, tasks_of, tasks_in, views_of, views_in};

use crate::part::{Part, Scene};
use team_run::view_count;

/// How many parts scenes have.
pub fn part_count(scenes: &[Scene]) -> usize
    requires { sum_by parts_of scenes.now ≤ 2 ^ 20 }
    ensures { result ≡ sum_by parts_of scenes.now }
{
    scenes.iter().map(|scene| scene.parts.len()).sum()
}

/// How many tasks scenes have.
pub fn task_count(scenes: &[Scene]) -> usize
    requires { sum_by tasks_of scenes.now ≤ 2 ^ 20 }
    ensures { result ≡ sum_by tasks_of scenes.now }
{
    let mut count = 0;
    for scene in scenes {
        count += tasks_in(scene.parts.as_slice());
    }
    count
}

/// How many tasks the parts of a phase have.
fn tasks_in(parts: &[Part]) -> usize
    requires { sum_by tasks_in parts.now ≤ 2 ^ 20 }
    ensures { result ≡ sum_by tasks_in parts.now }
{
    parts.iter().map(|part| part.tasks.len()).sum()
}

/// How many tasks of scenes are views.
pub fn shot_count(scenes: &[Scene]) -> usize
    requires { sum_by views_of scenes.now ≤ 2 ^ 20 }
    ensures { result ≡ sum_by views_of scenes.now }
{
    let mut count = 0;
    for scene in scenes {
        count += shots_in(scene.parts.as_slice());
    }
    count
}

/// How many tasks of the parts of a phase are views.
fn shots_in(parts: &[Part]) -> usize
    requires { sum_by views_in parts.now ≤ 2 ^ 20 }
    ensures { result ≡ sum_by views_in parts.now }
{
    parts
        .iter()
        .map(|part| view_count(part.tasks.as_slice()))
        .sum()
}
