// Reaching a cell: it is pinned where it is live, and claimed where it is absent.
ghost use Rattle.std.specs.Prelude.{◌≡◌, ℕ, suc, ◌<◌, false, [], ◌∷◌, ◌++◌, None, length, IfOk, IfErr, OnOk, OnErr, MatchOption, IfSome, IfNone};
ghost use Rattle.arr_history.specs.declared.event.Event.TheVariants as event;
ghost use Rattle.pin_words.specs.Finding.{pin};
ghost use Rattle.pin_words.specs.Tells.{HasSeen};
ghost use Rattle.pin_rule.specs.Calls.{plan_at, cell_count, IsHeld};
ghost use Rattle.pin_rule.specs.Going.{Goes};
ghost use Rattle.pin_rule.specs.Hands.{Hands};
ghost use Rattle.live_cells.specs.Actors.{doing, IsActorOf};
ghost use Rattle.live_cells.specs.Cells.{IsLiveFor};
ghost use Rattle.call_events.specs.Pieces.{misses};

use crate::actor::Actor;
use crate::patience::Patience;
use crate::steps::{claim, visit};
use cell_store::Store;
use pin_rule::{Claim, Handle, Pins};
use std::sync::Wait;

/// Pins the cell, or claims it. None where another pass is in the way.
fn try_reach<S: Store>(
    pins: &Pins<S>,
    actor: &mut Actor<S>,
    cell: u32,
) -> Option<Result<Handle, Claim>>
    requires actor { IsActorOf pins.now actor.old }
    requires cell { cell < cell_count pins.now }
    requires room { length (doing actor.old).pins < 64 }
    requires free { Hands [] [] [] None (doing actor.old) }
    ensures actor { IsActorOf pins.now actor.new }
    ensures pinned { IfSome result (λ r. IfOk r (λ h. (h.cell ≡ cell) × (h.marked ≡ false) × (h.loaded ≡ false) × IsHeld pins.now actor.new.pass h × ((doing actor.new).pins ≡ pin cell h.slot false ∷ (doing actor.old).pins))) }
    ensures hit { IfSome result (λ r. OnOk r (Hands [] [] [] None (doing actor.new) × Goes (plan_at S.contents pins.now) (doing actor.old) (event.Pin (doing actor.old).number cell ∷ []) (doing actor.new))) }
    ensures claimed { IfSome result (λ r. IfErr r (λ c. (c.cell ≡ cell) × Hands (cell ∷ []) [] [] None (doing actor.new) × ((doing actor.new).pins ≡ (doing actor.old).pins))) }
    ensures live { IfSome result (λ r. IfOk r (λ h. IsLiveFor (plan_at S.contents pins.now) (doing actor.new) h)) }
    ensures seen { IfSome result (λ r. OnOk r (HasSeen (plan_at S.contents pins.now) (doing actor.new))) }
    ensures took { IfSome result (λ r. OnErr r (Goes (plan_at S.contents pins.now) (doing actor.old) (event.Miss (doing actor.old).number cell ∷ event.Claim (doing actor.old).number cell ∷ []) (doing actor.new))) }
    ensures missed { IfNone result (Hands [] [] [] None (doing actor.new) × ((doing actor.new).pins ≡ (doing actor.old).pins) × Goes (plan_at S.contents pins.now) (doing actor.old) (event.Miss (doing actor.old).number cell ∷ []) (doing actor.new)) }
{
    if let Ok(handle) = visit(pins, actor, cell) {
        return Some(Ok(handle));
    }
    match claim(pins, &mut actor.pass, cell) {
        Ok(claim) => Some(Err(claim)),
        Err(_) => None,
    }
}

/// Pins a live cell, or claims an absent one, as soon as no other pass is in the way. Each try that finds the cell not live is a miss.
pub(crate) fn reach<S: Store, R: Wait>(
    rt: &R,
    pins: &Pins<S>,
    actor: &mut Actor<S>,
    cell: u32,
) -> Result<Handle, Claim>
    requires actor { IsActorOf pins.now actor.old }
    requires cell { cell < cell_count pins.now }
    requires room { length (doing actor.old).pins < 64 }
    requires free { Hands [] [] [] None (doing actor.old) }
    ensures actor { IsActorOf pins.now actor.new }
    ensures pinned { IfOk result (λ h. (h.cell ≡ cell) × (h.marked ≡ false) × (h.loaded ≡ false) × IsHeld pins.now actor.new.pass h × ((doing actor.new).pins ≡ pin cell h.slot false ∷ (doing actor.old).pins)) }
    ensures hit { OnOk result (Hands [] [] [] None (doing actor.new) × ((n : ℕ) × Goes (plan_at S.contents pins.now) (doing actor.old) (misses (doing actor.old).number cell n ++ event.Pin (doing actor.old).number cell ∷ []) (doing actor.new))) }
    ensures claimed { IfErr result (λ c. (c.cell ≡ cell) × Hands (cell ∷ []) [] [] None (doing actor.new) × ((doing actor.new).pins ≡ (doing actor.old).pins)) }
    ensures live { IfOk result (λ h. IsLiveFor (plan_at S.contents pins.now) (doing actor.new) h) }
    ensures seen { OnOk result (HasSeen (plan_at S.contents pins.now) (doing actor.new)) }
    ensures took { OnErr result ((n : ℕ) × Goes (plan_at S.contents pins.now) (doing actor.old) (misses (doing actor.old).number cell (suc n) ++ event.Claim (doing actor.old).number cell ∷ []) (doing actor.new)) }
{
    let mut patience = Patience::new();
    for _ in rt.forever() {
        if let Some(reached) = try_reach(pins, actor, cell) {
            return reached;
        }
        patience.wait(rt);
    }
    unreachable!()
}
