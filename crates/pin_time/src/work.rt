// What a thread does.
ghost use Rattle.std.specs.Prelude.{◌≡◌};
ghost use Rattle.pin_words.specs.Ends.{IsBare};
ghost use Rattle.pin_rule.specs.Calls.{view, IsPassOf};
ghost use Rattle.pin_rule.specs.Trying.{StaysBare};
ghost use Rattle.pin_time.specs.Timed.{IsTimed};

use crate::fills::voxels_filled;
use crate::loops::{load_once, pins_done, reads_done, rounds_done, visits_done, writes_done};
use crate::request::{Request, What, is_for_live};
use crate::table::Quiet;
use pin_rule::{Pass, Pins};

/// Makes an absent cell live where that is wanted.
pub fn prepare(pins: &Pins<Quiet>, pass: &mut Pass<Quiet>, cell: u32, request: Request)
    requires pass { IsPassOf pins.now pass.old }
    requires bare { IsBare (view pass.old) }
    requires timed { IsTimed pins.now cell }
    ensures pass { IsPassOf pins.now pass.new × StaysBare (view pass.old) (view pass.new) }
{
    if is_for_live(request.what) {
        load_once(pins, pass, cell);
    }
}

/// How often it was done with a cell.
pub fn work(pins: &Pins<Quiet>, pass: &mut Pass<Quiet>, cell: u32, request: Request) -> u64
    requires pass { IsPassOf pins.now pass.old }
    requires bare { IsBare (view pass.old) }
    requires timed { IsTimed pins.now cell }
    ensures pass { IsPassOf pins.now pass.new × StaysBare (view pass.old) (view pass.new) }
{
    match request.what {
        What::Pin => pins_done(pins, pass, cell, request.rounds),
        What::Read => reads_done(pins, pass, cell, request.rounds),
        What::Write => writes_done(pins, pass, cell, request.rounds),
        What::Fill => voxels_filled(pins, pass, cell, request.rounds),
        What::Round => rounds_done(pins, pass, cell, request.rounds),
        What::Visit => visits_done(pins, pass, cell, request.rounds),
    }
}
