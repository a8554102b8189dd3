// The rule of the table, and what each step tells.

use crate::made::Made;
use crate::pass::View;
use atomic_table::{Join, Play, Split, TableRule};
use cell_store::Store;
use std::marker::{Brand, PhantomData};

pub(crate) struct Kept;

impl<S: Store> TableRule<Option<S>, View<S>, Made<S>> for Kept {
    ghost use Rattle.std.specs.Prelude.{Some};
    ghost use Rattle.pin_words.specs.Rule.{Ruled};
    ghost use Rattle.pin_words.specs.Ends.{starting};
    ghost use Rattle.pin_rule.specs.Plans.{plan_of};

    ghost holds = { λ key. Ruled (plan_of S.contents (Some key)) };

    ghost first = { λ key. starting (plan_of S.contents (Some key)) };
}

/// The pin, or the cell, and the offset that a step is about, for the proof alone. A call at `Brand` picks them.
pub(crate) trait About {
    ghost use Rattle.std.specs.Prelude.{ℕ};
    ghost use Rattle.pin_words.specs.declared.holding.Pin.{Pin};

    ghost pin: { Pin };

    ghost at: { ℕ };
}

impl About for Brand {
    ghost use Rattle.std.specs.Prelude.{false};
    ghost use Rattle.pin_words.specs.Finding.{pin as make_pin};

    ghost pin = { make_pin 0 0 false };

    ghost at = { 0 };
}

/// A visit of a cell.
pub(crate) struct Visit<S> {
    of: PhantomData<S>,
}

impl<S: Store> Play<Option<S>, View<S>> for Visit<S> {
    ghost use Rattle.pin_words.specs.Pins.{visited};
    ghost use Rattle.pin_rule.specs.Plans.{plan_of};

    ghost then = { visited (plan_of S.contents) };
}

/// The way back after a miss.
pub(crate) struct WayBack<S> {
    of: PhantomData<S>,
}

impl<S: Store> Play<Option<S>, View<S>> for WayBack<S> {
    ghost use Rattle.pin_words.specs.Pins.{went_back};
    ghost use Rattle.pin_rule.specs.Plans.{plan_of};

    ghost then = { went_back (plan_of S.contents) };
}

/// The end of a pin.
pub(crate) struct Unpin<S, W> {
    of: PhantomData<(S, W)>,
}

impl<S: Store, W: About> Play<Option<S>, View<S>> for Unpin<S, W> {
    ghost use Rattle.pin_words.specs.Pins.{unpinned};
    ghost use Rattle.pin_rule.specs.Plans.{plan_of};

    ghost then = { unpinned (plan_of S.contents) W.pin };
}

/// A mark.
pub(crate) struct Mark<S, W> {
    of: PhantomData<(S, W)>,
}

impl<S: Store, W: About> Play<Option<S>, View<S>> for Mark<S, W> {
    ghost use Rattle.pin_words.specs.Pins.{marked};
    ghost use Rattle.pin_rule.specs.Plans.{plan_of};

    ghost then = { marked (plan_of S.contents) W.pin };
}

/// The load of a voxel.
pub(crate) struct Read<S, W> {
    of: PhantomData<(S, W)>,
}

impl<S: Store, W: About> Play<Option<S>, View<S>> for Read<S, W> {
    ghost use Rattle.pin_words.specs.Pins.{read};
    ghost use Rattle.pin_rule.specs.Plans.{plan_of};

    ghost then = { read (plan_of S.contents) W.pin W.at };
}

/// The store of a voxel.
pub(crate) struct Write<S, W> {
    of: PhantomData<(S, W)>,
}

impl<S: Store, W: About> Play<Option<S>, View<S>> for Write<S, W> {
    ghost use Rattle.pin_words.specs.Pins.{written};
    ghost use Rattle.pin_rule.specs.Plans.{plan_of};

    ghost then = { written (plan_of S.contents) W.pin W.at };
}

/// The taking of a slot.
pub(crate) struct TakeSlot<S> {
    of: PhantomData<S>,
}

impl<S: Store> Play<Option<S>, View<S>> for TakeSlot<S> {
    ghost use Rattle.pin_words.specs.Cells.{slots_taken};
    ghost use Rattle.pin_rule.specs.Plans.{plan_of};

    ghost then = { slots_taken (plan_of S.contents) };
}

/// The giving of a slot.
pub(crate) struct GiveSlot<S> {
    of: PhantomData<S>,
}

impl<S: Store> Play<Option<S>, View<S>> for GiveSlot<S> {
    ghost use Rattle.pin_words.specs.Cells.{slots_given};
    ghost use Rattle.pin_rule.specs.Plans.{plan_of};

    ghost then = { slots_given (plan_of S.contents) };
}

/// The claim of a cell.
pub(crate) struct ClaimCell<S> {
    of: PhantomData<S>,
}

impl<S: Store> Play<Option<S>, View<S>> for ClaimCell<S> {
    ghost use Rattle.pin_words.specs.Cells.{claims};
    ghost use Rattle.pin_rule.specs.Plans.{plan_of};

    ghost then = { claims (plan_of S.contents) };
}

/// The end of a claim.
pub(crate) struct DropClaim<S> {
    of: PhantomData<S>,
}

impl<S: Store> Play<Option<S>, View<S>> for DropClaim<S> {
    ghost use Rattle.pin_words.specs.Cells.{drops};
    ghost use Rattle.pin_rule.specs.Plans.{plan_of};

    ghost then = { drops (plan_of S.contents) };
}

/// A store of a fill.
pub(crate) struct StoreNumber<S> {
    of: PhantomData<S>,
}

impl<S: Store> Play<Option<S>, View<S>> for StoreNumber<S> {
    ghost use Rattle.pin_words.specs.Cells.{stores};
    ghost use Rattle.pin_rule.specs.Plans.{plan_of};

    ghost then = { stores (plan_of S.contents) };
}

/// The last store of a fill.
pub(crate) struct StoreLast<S, W> {
    of: PhantomData<(S, W)>,
}

impl<S: Store, W: About> Play<Option<S>, View<S>> for StoreLast<S, W> {
    ghost use Rattle.pin_words.specs.Cells.{fills};
    ghost use Rattle.pin_rule.specs.Plans.{plan_of};

    ghost then = { fills (plan_of S.contents) W.pin.cell };
}

/// A claimed cell goes live.
pub(crate) struct Publish<S> {
    of: PhantomData<S>,
}

impl<S: Store> Play<Option<S>, View<S>> for Publish<S> {
    ghost use Rattle.pin_words.specs.Cells.{publishes};
    ghost use Rattle.pin_rule.specs.Plans.{plan_of};

    ghost then = { publishes (plan_of S.contents) };
}

/// The taking of a lane.
pub(crate) struct TakeLane<S> {
    of: PhantomData<S>,
}

impl<S: Store> Play<Option<S>, View<S>> for TakeLane<S> {
    ghost use Rattle.pin_words.specs.Lanes.{took};
    ghost use Rattle.pin_rule.specs.Plans.{plan_of};

    ghost then = { took (plan_of S.contents) };
}

/// The giving of a lane.
pub(crate) struct GiveLane<S> {
    of: PhantomData<S>,
}

impl<S: Store> Play<Option<S>, View<S>> for GiveLane<S> {
    ghost use Rattle.pin_words.specs.Lanes.{gave};
    ghost use Rattle.pin_rule.specs.Plans.{plan_of};

    ghost then = { gave (plan_of S.contents) };
}

/// The closing of a cell.
pub(crate) struct CloseCell<S> {
    of: PhantomData<S>,
}

impl<S: Store> Play<Option<S>, View<S>> for CloseCell<S> {
    ghost use Rattle.pin_words.specs.Cells.{closes};
    ghost use Rattle.pin_rule.specs.Plans.{plan_of};

    ghost then = { closes (plan_of S.contents) };
}

/// The load from a closed cell.
pub(crate) struct LookAt<S, W> {
    of: PhantomData<(S, W)>,
}

impl<S: Store, W: About> Play<Option<S>, View<S>> for LookAt<S, W> {
    ghost use Rattle.pin_words.specs.Cells.{looks};
    ghost use Rattle.pin_rule.specs.Plans.{plan_of};

    ghost then = { looks (plan_of S.contents) W.pin.cell W.at };
}

/// A closed cell is gone.
pub(crate) struct LetGo<S> {
    of: PhantomData<S>,
}

impl<S: Store> Play<Option<S>, View<S>> for LetGo<S> {
    ghost use Rattle.pin_words.specs.Cells.{goes};
    ghost use Rattle.pin_rule.specs.Plans.{plan_of};

    ghost then = { goes (plan_of S.contents) };
}

/// A closed cell comes back.
pub(crate) struct ComeBack<S> {
    of: PhantomData<S>,
}

impl<S: Store> Play<Option<S>, View<S>> for ComeBack<S> {
    ghost use Rattle.pin_words.specs.Cells.{backs};
    ghost use Rattle.pin_rule.specs.Plans.{plan_of};

    ghost then = { backs (plan_of S.contents) };
}

/// The load after a join.
pub(crate) struct Settle<S> {
    of: PhantomData<S>,
}

impl<S: Store> Play<Option<S>, View<S>> for Settle<S> {
    ghost use Rattle.pin_words.specs.Ends.{settled};
    ghost use Rattle.pin_rule.specs.Plans.{plan_of};

    ghost then = { settled (plan_of S.contents) };
}

/// A new pass.
pub(crate) struct Another;

impl<S> Split<View<S>> for Another {
    ghost use Rattle.pin_words.specs.Ends.{parent, child};

    ghost left = { parent };

    ghost right = { child };
}

/// A pass is joined into the first one.
pub(crate) struct Rejoin;

impl<S> Join<View<S>> for Rejoin {
    ghost use Rattle.std.specs.Prelude.{None};
    ghost use Rattle.pin_words.specs.Ends.{joined, spent_view};

    ghost both = { joined };

    ghost spent = { spent_view None };
}

/// What a trail keeps.
pub(crate) struct ForTrail;

impl<S> Split<View<S>> for ForTrail {
    ghost use Rattle.pin_words.specs.Ends.{trail_of};

    ghost left = { λ d. d };

    ghost right = { trail_of };
}
