// The calls on lanes.
ghost use Rattle.std.specs.Prelude.{◌≡◌, ◌<◌, None, MatchResult};
ghost use Rattle.pin_words.specs.Lanes.{TakesLane, MissesLane};
ghost use Rattle.pin_rule.specs.Calls.{view, plan_at, lane_count, IsPassOf, MayReturn, IsReturned};

use crate::handles::Lane;
use crate::lane_steps::{put_lane, take_lane};
use crate::pass::Pass;
use crate::pins::Pins;
use crate::refusals::LaneTaken;
use cell_store::Store;

impl<S: Store> Pins<S> {
    /// Takes the store of a lane. It is refused exactly where another pass had it.
    pub fn try_lane(&self, pass: &mut Pass<S>, lane: u32) -> Result<Lane<S>, LaneTaken>
        requires pass { IsPassOf self.now pass.old }
        requires bare { (view pass.old).lane ≡ None }
        requires lane { lane < lane_count self.now }
        ensures pass { IsPassOf self.now pass.new }
        ensures done { MatchResult result (λ l. (l.lane ≡ lane) × TakesLane (plan_at S.contents self.now) (view pass.old) lane l.store (view pass.new)) (λ e. MissesLane (plan_at S.contents self.now) (view pass.old) lane e.word (view pass.new)) }
    {
        let word = self.lane_index(lane);
        match take_lane(&self.table.shared, &mut pass.seat, lane, word) {
            Ok(store) => Ok(Lane { lane, store }),
            Err(word) => Err(LaneTaken { word }),
        }
    }

    /// Gives the store of a lane back.
    pub fn give_lane(&self, pass: &mut Pass<S>, lane: Lane<S>)
        requires pass { IsPassOf self.now pass.old }
        requires lane { lane.lane < lane_count self.now }
        requires fits { MayReturn (plan_at S.contents self.now) (view pass.old) lane }
        ensures pass { IsPassOf self.now pass.new }
        ensures done { IsReturned (plan_at S.contents self.now) (view pass.old) lane (view pass.new) }
    {
        let Lane { lane, store } = lane;
        let word = self.lane_index(lane);
        put_lane(&self.table.shared, &mut pass.seat, lane, store, word);
    }
}
