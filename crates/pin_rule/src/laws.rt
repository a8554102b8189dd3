// What holds of a table for any stores, and the laws of what passes go through and hold. `S` is a store, and `M` what the
// table was told.
ghost use Rattle.pin_rule.specs.Going.{StaysWithNothing, GoesOn, GoesByAnEvent, GoesBySeeing, KeepsItsOwn};
ghost use Rattle.pin_rule.specs.Hands.{HoldsNothing};
ghost use Rattle.pin_rule.specs.Saving.{GivesAfterSaving, GivesAfterNotSaving};

use crate::pass::Pass;
use crate::pins::Pins;
use cell_store::Store;

fn can_be_sent<X: Send>() {}

fn can_be_shared<X: Sync>() {}

/// Threads can share a table, and a pass can be moved to one, where the stores can be moved.
pub fn pins_cross_threads<S: Store + Send>() {
    can_be_sent::<Pins<S>>();
    can_be_shared::<Pins<S>>();
    can_be_sent::<Pass<S>>();
}

/// A pass that does nothing goes through nothing.
pub fn stays_with_nothing<S, M>()
    ensures { StaysWithNothing S M }
{}

/// One way after another is a way, by the events of both.
pub fn goes_on<S, M>()
    ensures { GoesOn S M }
{}

/// A step that makes an event goes through this event alone.
pub fn goes_by_an_event<S, M>()
    ensures { GoesByAnEvent S M }
{}

/// A step that makes no event goes through none of its own.
pub fn goes_by_seeing<S, M>()
    ensures { GoesBySeeing S M }
{}

/// A pass that had seen all of its own events still has.
pub fn keeps_its_own<S, M>()
    ensures { KeepsItsOwn S M }
{}

/// A bare pass has no pin, and holds nothing else.
pub fn holds_nothing<S, M>()
    ensures { HoldsNothing S M }
{}

/// Once a marked cell was put and is gone, its lane may be given back.
pub fn gives_after_saving<S>()
    ensures { GivesAfterSaving S }
{}

/// Where it couldn't be put, the lane may be given back too.
pub fn gives_after_not_saving<S>()
    ensures { GivesAfterNotSaving S }
{}
