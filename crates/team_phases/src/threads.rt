// Actors and fetchers, each on a thread of its own.
ghost use Rattle.std.specs.Prelude.{◌≡◌, All};
ghost use Rattle.std.specs.Fork.{AcceptsEach};
ghost use Rattle.std.specs.List.{AllZip};
ghost use Rattle.team_passes.specs.Teams.{IsTeamPass};
ghost use Rattle.team_phases.specs.Changes.{AreChangedBy};
ghost use Rattle.team_phases.specs.Working.{IsTeamQueue, IsReady, HasActed, HasFetched};

use crate::actor::Actor;
use cell_store::Store;
use live_cells::Cells;
use queue_desk::QueueDesk;
use std::sync::Wait;
use std::sync::atomic::{AtomicBool, Ordering};
use std::thread::{Threads, join_mut};
use std::{mem, thread};
use team_actors::{Gate, act, fetch_ahead};
use team_passes::TeamPass;
use thread_plan::Part;
use turn_cell::Turn;

/// All actors work, each on a thread of its own where one can be made, beside the fetchers, which stop then.
pub(crate) fn together<S: Store + Send, R: Threads + Wait + Sync, G: Gate>(
    rt: &R,
    cells: &Cells<S>,
    queue: &Turn<QueueDesk>,
    gate: &G,
    actors: &mut [Actor<S>],
    fetchers: &mut [TeamPass<S>],
)
    requires queue { IsTeamQueue cells.now queue.now }
    requires actors { All (IsReady cells.now queue.now) actors.old }
    requires fetchers { All (IsTeamPass cells.now queue.now) fetchers.old }
    ensures acted { AllZip (HasActed S.contents cells.now queue.now) actors.old actors.new }
    ensures fetched { AllZip (HasFetched S.contents cells.now queue.now) fetchers.old fetchers.new }
{
    let stop = AtomicBool::new(false);
    let stop = &stop;
    beside(
        rt,
        &|_, pass: &mut TeamPass<S>|
            requires queue { IsTeamQueue cells.now queue.now }
            requires pass { IsTeamPass cells.now queue.now pass.old }
            ensures { HasFetched S.contents cells.entry.now queue.entry.now pass.old pass.new }
        { fetch_by(rt, cells, queue, stop, pass) },
        &|_, actor: &mut Actor<S>|
            requires queue { IsTeamQueue cells.now queue.now }
            requires actor { IsReady cells.now queue.now actor.old }
            ensures { HasActed S.contents cells.entry.now queue.entry.now actor.old actor.new }
        { act_by(rt, cells, queue, gate, actor) },
        stop,
        fetchers,
        actors,
    );
}

/// Works each of two lists, each element on a thread of its own where one can be made. The flag is set once the second list is done; where
/// no thread can be made, it is done first.
fn beside<
    R: Threads + Sync,
    X: Send,
    Y: Send,
    F: Fn(usize, &mut X) + Sync,
    G: Fn(usize, &mut Y) + Sync,
>(rt: &R, serve: &F, work: &G, stop: &AtomicBool, ahead: &mut [X], all: &mut [Y])
    requires serve { AcceptsEach F.Fn serve.now ahead.old }
    requires work { AcceptsEach G.Fn work.now all.old }
    ensures served { AreChangedBy F.Fn serve.now ahead.old ahead.new }
    ensures worked { AreChangedBy G.Fn work.now all.old all.new }
{
    join_mut(
        rt,
        &mut ||
            requires { AcceptsEach F.Fn serve.now ahead.now }
            ensures { AreChangedBy F.Fn serve.entry.now ahead.entry.now ahead.exit.now }
        { each(rt, serve, ahead) },
        &mut ||
            requires { AcceptsEach G.Fn work.now all.now }
            ensures { AreChangedBy G.Fn work.entry.now all.entry.now all.exit.now }
        { each_then_stop(rt, work, stop, all) },
    );
}

fn each<R: Threads + Sync, X: Send, F: Fn(usize, &mut X) + Sync>(rt: &R, work: &F, all: &mut [X])
    requires { AcceptsEach F.Fn work.now all.old }
    ensures { AreChangedBy F.Fn work.now all.old all.new }
{
    let threads = all.len().max(1);
    thread::for_each_mut(rt, all, threads, work);
}

fn each_then_stop<R: Threads + Sync, X: Send, F: Fn(usize, &mut X) + Sync>(
    rt: &R,
    work: &F,
    stop: &AtomicBool,
    all: &mut [X],
)
    requires { AcceptsEach F.Fn work.now all.old }
    ensures { AreChangedBy F.Fn work.now all.old all.new }
{
    each(rt, work, all);
    stop.store(true, Ordering::SeqCst);
}

/// Carries out an actor's part.
fn act_by<S: Store, R: Wait, G: Gate>(
    rt: &R,
    cells: &Cells<S>,
    queue: &Turn<QueueDesk>,
    gate: &G,
    actor: &mut Actor<S>,
)
    requires queue { IsTeamQueue cells.now queue.now }
    requires actor { IsReady cells.now queue.now actor.old }
    ensures { HasActed S.contents cells.now queue.now actor.old actor.new }
{
    let Actor { pass, part } = actor;
    let TeamPass { cells: own, asks } = pass;
    let Part {
        tasks,
        replies,
        shots,
    } = part;
    let alloc = *tasks.allocator();
    let tasks = mem::replace(tasks, Vec::new(alloc));
    act(rt, cells, queue, gate, own, asks, tasks, replies, shots);
}

/// Serves what the queue gives until the fetcher is told to stop.
fn fetch_by<S: Store, R: Wait>(
    rt: &R,
    cells: &Cells<S>,
    queue: &Turn<QueueDesk>,
    stop: &AtomicBool,
    pass: &mut TeamPass<S>,
)
    requires queue { IsTeamQueue cells.now queue.now }
    requires pass { IsTeamPass cells.now queue.now pass.old }
    ensures { HasFetched S.contents cells.now queue.now pass.old pass.new }
{
    let TeamPass { cells: own, asks } = pass;
    fetch_ahead(rt, cells, queue, own, asks, stop);
}
