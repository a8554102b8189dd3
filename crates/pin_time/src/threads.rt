// Two threads with the same cell, or with one each.
ghost use Rattle.std.specs.Prelude.{◌≡◌, ◌<◌};
ghost use Rattle.pin_words.specs.Ends.{IsBare};
ghost use Rattle.pin_rule.specs.Calls.{view, IsPassOf};
ghost use Rattle.pin_rule.specs.Trying.{StaysBare};
ghost use Rattle.pin_time.specs.Timed.{IsTimed};

use crate::request::{Request, beside};
use crate::table::{Quiet, geometry, table};
use crate::work::{prepare, work};
use pin_rule::{Pass, Pins};
use std::alloc::Global;
use std::thread::{Threads, join};

/// How often it was done, with a pass that comes and goes.
fn half(
    pins: &Pins<Quiet>,
    mut pass: Pass<Quiet>,
    cell: u32,
    request: Request,
) -> (Pass<Quiet>, u64)
    requires pass { IsPassOf pins.now pass × IsBare (view pass) }
    requires timed { IsTimed pins.now cell }
    ensures pass { IsPassOf pins.now result.0 × StaysBare (view pass) (view result.0) }
{
    let done = work(pins, &mut pass, cell, request);
    (pass, done)
}

/// Two threads at work, the first with cell 0.
fn halves<R: Threads + Sync>(
    rt: &R,
    pins: &Pins<Quiet>,
    one: Pass<Quiet>,
    two: Pass<Quiet>,
    cell: u32,
    request: Request,
) -> ((Pass<Quiet>, u64), (Pass<Quiet>, u64))
    requires one { IsPassOf pins.now one × IsBare (view one) }
    requires two { IsPassOf pins.now two × IsBare (view two) }
    requires timed { IsTimed pins.now 0 × IsTimed pins.now cell }
    ensures one { IsPassOf pins.now result.0.0 × StaysBare (view one) (view result.0.0) }
    ensures two { IsPassOf pins.now result.1.0 × StaysBare (view two) (view result.1.0) }
{
    join(
        rt,
        move ||
            requires { IsPassOf pins.now one × IsBare (view one) × IsTimed pins.now 0 }
            ensures { IsPassOf pins.entry.now result.0 × StaysBare (view one) (view result.0) }
        { half(pins, one, 0, request) },
        move ||
            requires { IsPassOf pins.now two × IsBare (view two) × IsTimed pins.now cell }
            ensures { IsPassOf pins.entry.now result.0 × StaysBare (view two) (view result.0) }
        { half(pins, two, cell, beside(request)) },
    )
}

/// How often two threads did it, where the second one's cell is 0 or 1. None where memory wanted.
pub fn done_by_two<R: Threads + Sync>(
    rt: &R,
    alloc: Global,
    cell: u32,
    request: Request,
) -> Option<u64>
    requires cell { cell < 2 }
{
    let geometry = geometry(alloc)?;
    let (pins, mut pass) = table(alloc, &geometry)?;
    let other = pins.split(&mut pass);
    prepare(&pins, &mut pass, 0, request);
    prepare(&pins, &mut pass, 1, request);
    let (first, second) = halves(rt, &pins, pass, other, cell, request);
    let (mut pass, one) = first;
    let (other, two) = second;
    pins.join(&mut pass, other);
    let (_stores, _trail) = pins.close(pass);
    Some(one.wrapping_add(two))
}
