// What is done in each round, over and over.
ghost use Rattle.std.specs.Prelude.{◌≡◌};
ghost use Rattle.pin_words.specs.Ends.{IsBare};
ghost use Rattle.pin_rule.specs.Calls.{view, IsPassOf};
ghost use Rattle.pin_rule.specs.Trying.{StaysBare};
ghost use Rattle.pin_time.specs.Timed.{IsTimed};

use crate::loads::{load, reach, turn_out};
use crate::table::Quiet;
use pin_rule::{Pass, Pins};

/// How often a cell is visited in a round: alone it takes about half as long as filling a frame.
const VISITS: u64 = 16;

/// Makes an absent cell live, with no pin.
pub fn load_once(pins: &Pins<Quiet>, pass: &mut Pass<Quiet>, cell: u32)
    requires pass { IsPassOf pins.now pass.old }
    requires bare { IsBare (view pass.old) }
    requires timed { IsTimed pins.now cell }
    ensures pass { IsPassOf pins.now pass.new × StaysBare (view pass.old) (view pass.new) }
{
    if let Some(handle) = load(pins, pass, cell) {
        pins.unpin(pass, handle);
    }
}

/// Pins a live cell and unpins it. Says whether it was live.
fn pin_once(pins: &Pins<Quiet>, pass: &mut Pass<Quiet>, cell: u32) -> bool
    requires pass { IsPassOf pins.now pass.old }
    requires bare { IsBare (view pass.old) }
    requires timed { IsTimed pins.now cell }
    ensures pass { IsPassOf pins.now pass.new × StaysBare (view pass.old) (view pass.new) }
{
    match pins.try_pin(pass, cell) {
        Ok(handle) => {
            pins.unpin(pass, handle);
            true
        }
        Err(_) => false,
    }
}

/// Loads a cell where it isn't live yet, and turns it out. Says whether it was turned out.
fn round_once(pins: &Pins<Quiet>, pass: &mut Pass<Quiet>, cell: u32) -> bool
    requires pass { IsPassOf pins.now pass.old }
    requires bare { IsBare (view pass.old) }
    requires timed { IsTimed pins.now cell }
    ensures pass { IsPassOf pins.now pass.new × StaysBare (view pass.old) (view pass.new) }
{
    match reach(pins, pass, cell) {
        Some(handle) => {
            let slot = handle.slot();
            pins.unpin(pass, handle);
            turn_out(pins, pass, cell, slot)
        }
        None => false,
    }
}

/// How often a live cell was pinned and unpinned.
pub fn pins_done(pins: &Pins<Quiet>, pass: &mut Pass<Quiet>, cell: u32, rounds: u32) -> u64
    requires pass { IsPassOf pins.now pass.old }
    requires bare { IsBare (view pass.old) }
    requires timed { IsTimed pins.now cell }
    ensures pass { IsPassOf pins.now pass.new × StaysBare (view pass.old) (view pass.new) }
{
    let mut done: u64 = 0;
    for _round in 0..rounds {
        if pin_once(pins, pass, cell) {
            done = done.wrapping_add(1);
        }
    }
    done
}

/// The sum of the voxels of a live cell that were read, one in each round.
pub fn reads_done(pins: &Pins<Quiet>, pass: &mut Pass<Quiet>, cell: u32, rounds: u32) -> u64
    requires pass { IsPassOf pins.now pass.old }
    requires bare { IsBare (view pass.old) }
    requires timed { IsTimed pins.now cell }
    ensures pass { IsPassOf pins.now pass.new × StaysBare (view pass.old) (view pass.new) }
{
    let Ok(handle) = pins.try_pin(pass, cell) else {
        return 0;
    };
    let mut sum: u64 = 0;
    for round in 0..rounds {
        let voxel = pins.read(pass, &handle, round % 64);
        sum = sum.wrapping_add(voxel);
    }
    pins.unpin(pass, handle);
    sum
}

/// How many voxels of a live cell were written, one in each round.
pub fn writes_done(pins: &Pins<Quiet>, pass: &mut Pass<Quiet>, cell: u32, rounds: u32) -> u64
    requires pass { IsPassOf pins.now pass.old }
    requires bare { IsBare (view pass.old) }
    requires timed { IsTimed pins.now cell }
    ensures pass { IsPassOf pins.now pass.new × StaysBare (view pass.old) (view pass.new) }
{
    let Ok(mut handle) = pins.try_pin(pass, cell) else {
        return 0;
    };
    pins.mark(pass, &mut handle);
    let mut done: u64 = 0;
    for round in 0..rounds {
        pins.write(pass, &handle, round % 64, 1);
        done = done.wrapping_add(1);
    }
    pins.unpin(pass, handle);
    done
}

/// Loads an absent cell and turns it out, and tries again where a visitor is in the way. How often that was done.
pub fn rounds_done(pins: &Pins<Quiet>, pass: &mut Pass<Quiet>, cell: u32, rounds: u32) -> u64
    requires pass { IsPassOf pins.now pass.old }
    requires bare { IsBare (view pass.old) }
    requires timed { IsTimed pins.now cell }
    ensures pass { IsPassOf pins.now pass.new × StaysBare (view pass.old) (view pass.new) }
{
    let mut done: u32 = 0;
    for _try in 0..u32::MAX {
        if done == rounds {
            return u64::from(done);
        }
        if round_once(pins, pass, cell) {
            done = done.wrapping_add(1);
        }
    }
    u64::from(done)
}

/// Pins a cell and unpins it where it is live, and misses it where it isn't. How often that was done.
pub fn visits_done(pins: &Pins<Quiet>, pass: &mut Pass<Quiet>, cell: u32, rounds: u32) -> u64
    requires pass { IsPassOf pins.now pass.old }
    requires bare { IsBare (view pass.old) }
    requires timed { IsTimed pins.now cell }
    ensures pass { IsPassOf pins.now pass.new × StaysBare (view pass.old) (view pass.new) }
{
    let visits = u64::from(rounds) * VISITS;
    for _visit in 0..visits {
        let _live = pin_once(pins, pass, cell);
    }
    visits
}
