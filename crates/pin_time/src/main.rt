//! Does one thing many times with the cells of a table over shared words, so that `bench/pins.py` can time it.
#![tactic(auto)]

mod fills;
mod loads;
mod loops;
mod request;
mod table;
mod threads;
mod work;

use request::{Hands, Request, request_of};
use std::alloc::Global;
use std::process::ExitCode;
use std::rt::Runtime;
use std::thread::Threads;
use std::{env, io};
use table::{geometry, table};
use threads::done_by_two;
use work::{prepare, work};

fn main(rt: HostRuntime) -> io::Result<ExitCode> {
    let words: Vec<String> = env::args(&rt)?.skip(1).collect(rt.alloc())?;
    let Some(request) = request_of(words.as_slice()) else {
        println!(rt; "usage: pin_time pin|read|write|fill|round|visit one|same|other ROUNDS")?;
        return Ok(ExitCode::from(2));
    };
    let Some(done) = done(&rt, rt.alloc(), request) else {
        println!(rt; "want of memory")?;
        return Ok(ExitCode::from(7));
    };
    println!(rt; "{done}")?;
    Ok(ExitCode::SUCCESS)
}

/// How often it was done. None where memory wanted.
fn done<R: Threads + Sync>(rt: &R, alloc: Global, request: Request) -> Option<u64> {
    match request.hands {
        Hands::One => done_alone(alloc, request),
        Hands::Same => done_by_two(rt, alloc, 0, request),
        Hands::Other => done_by_two(rt, alloc, 1, request),
    }
}

/// How often it was done. None where memory wanted.
fn done_alone(alloc: Global, request: Request) -> Option<u64> {
    let geometry = geometry(alloc)?;
    let (pins, mut pass) = table(alloc, &geometry)?;
    prepare(&pins, &mut pass, 0, request);
    let done = work(&pins, &mut pass, 0, request);
    let (_stores, _trail) = pins.close(pass);
    Some(done)
}
