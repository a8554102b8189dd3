// Taking a lane and giving it back.
ghost use Rattle.std.specs.Prelude.{◌≡◌, ◌<◌, [], Some, None, IfOk, OnErr};
ghost use Rattle.cell_store.specs.Faults.{Rose};
ghost use Rattle.pin_words.specs.declared.lane.Taken.{Taken};
ghost use Rattle.pin_words.specs.Account.{rise};
ghost use Rattle.pin_words.specs.Tells.{IsLone};
ghost use Rattle.pin_rule.specs.Calls.{view, plan_at, lane_count, IsPassOf, MayReturn};
ghost use Rattle.pin_rule.specs.Going.{Goes};
ghost use Rattle.pin_rule.specs.Hands.{Hands};
ghost use Rattle.live_cells.specs.Lanes.{JustTook};

use crate::patience::Patience;
use cell_store::Store;
use pin_rule::{Lane, LaneTaken, Pass, Pins};
use std::sync::Wait;

/// Takes the store of a lane, where no other pass has it.
pub(crate) fn try_lane<S: Store>(
    pins: &Pins<S>,
    pass: &mut Pass<S>,
    lane: u32,
) -> Result<Lane<S>, LaneTaken>
    requires pass { IsPassOf pins.now pass.old }
    requires lane { lane < lane_count pins.now }
    requires bare { (view pass.old).lane ≡ None }
    ensures pass { IsPassOf pins.now pass.new }
    ensures pins { (view pass.new).pins ≡ (view pass.old).pins }
    ensures lane { IfOk result (λ l. l.lane ≡ lane) }
    ensures took { IfOk result (λ l. JustTook (plan_at S.contents pins.now) lane l.store (view pass.old).claims (view pass.old).slots (view pass.old).leaving (view pass.new)) }
    ensures none { OnErr result (Hands (view pass.old).claims (view pass.old).slots (view pass.old).leaving None (view pass.new)) }
    ensures lone { OnErr result (IsLone (view pass.old) → ⊥) }
    ensures went { Goes (plan_at S.contents pins.now) (view pass.old) [] (view pass.new) }
{
    match pins.try_lane(pass, lane) {
        Ok(lane) => Ok(lane),
        Err(taken) => Err(taken),
    }
}

/// Takes the store of a lane as soon as no other pass has it.
pub(crate) fn take_lane<S: Store, R: Wait>(
    rt: &R,
    pins: &Pins<S>,
    pass: &mut Pass<S>,
    lane: u32,
) -> Lane<S>
    requires pass { IsPassOf pins.now pass.old }
    requires lane { lane < lane_count pins.now }
    requires bare { (view pass.old).lane ≡ None }
    ensures pass { IsPassOf pins.now pass.new }
    ensures pins { (view pass.new).pins ≡ (view pass.old).pins }
    ensures lane { result.lane ≡ lane }
    ensures took { JustTook (plan_at S.contents pins.now) lane result.store (view pass.old).claims (view pass.old).slots (view pass.old).leaving (view pass.new) }
    ensures went { Goes (plan_at S.contents pins.now) (view pass.old) [] (view pass.new) }
{
    let mut patience = Patience::new();
    for _ in rt.forever() {
        if let Ok(lane) = try_lane(pins, pass, lane) {
            return lane;
        }
        patience.wait(rt);
    }
    unreachable!()
}

/// Gives the store of the lane back that the pass has.
pub(crate) fn give_lane<S: Store>(pins: &Pins<S>, pass: &mut Pass<S>, lane: Lane<S>)
    requires pass { IsPassOf pins.now pass.old }
    requires lane { lane.lane < lane_count pins.now }
    requires fits { MayReturn (plan_at S.contents pins.now) (view pass.old) lane }
    ensures pass { IsPassOf pins.now pass.new }
    ensures pins { (view pass.new).pins ≡ (view pass.old).pins }
    ensures hands { Hands (view pass.old).claims (view pass.old).slots (view pass.old).leaving None (view pass.new) }
    ensures raised { (o : Taken _) → (view pass.old).lane ≡ Some o → Rose (S.contents o.store).faults (S.contents lane.store).faults → rise lane.lane (view pass.old) < rise lane.lane (view pass.new) }
    ensures went { Goes (plan_at S.contents pins.now) (view pass.old) [] (view pass.new) }
{
    pins.give_lane(pass, lane);
}
