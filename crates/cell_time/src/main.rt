//! Gets and sets voxels of cached cells many times, so that `bench/cells.py` can time it.
#![tactic(auto)]

ghost use Rattle.std.specs.Prelude.{◌≤◌};

mod blank;
mod grid;
mod request;
mod shared;
mod sole;

use request::{Cache, Request, request_of};
use shared::done_by_threads;
use sole::done_alone;
use std::alloc::Global;
use std::process::ExitCode;
use std::rt::Runtime;
use std::sync::Wait;
use std::thread::Threads;
use std::{env, io};

fn main(rt: HostRuntime) -> io::Result<ExitCode> {
    let words: Vec<String> = env::args(&rt)?.skip(1).collect(rt.alloc())?;
    let Some(request) = request_of(words.as_slice()) else {
        println!(rt; "usage: cell_time cells|sole hit|shared|load|put one|two SLOTS ROUNDS")?;
        return Ok(ExitCode::from(2));
    };
    let Some(done) = done(&rt, rt.alloc(), request) else {
        println!(rt; "want of memory")?;
        return Ok(ExitCode::from(7));
    };
    println!(rt; "{done}")?;
    Ok(ExitCode::SUCCESS)
}

/// How often it was done. None where memory wanted.
fn done<R: Threads + Wait + Sync>(rt: &R, alloc: Global, request: Request) -> Option<u64>
    requires { (2 ≤ request.slots) × (request.slots ≤ 4096) }
{
    match request.cache {
        Cache::Cells => done_by_threads(rt, alloc, request),
        Cache::Sole => done_alone(alloc, request),
    }
}
