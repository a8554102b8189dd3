// The calls of a queue behind a turn.
ghost use Rattle.std.specs.Prelude.{◌<◌, [], ◌∷◌, IfSome};
ghost use Rattle.turn_cell.specs.Turn.{opened_at, view, IsPassOf};
ghost use Rattle.volatile_cell.specs.declared.queue_call.QueueCall.TheVariants as call;
ghost use Rattle.volatile_cell.specs.declared.queue_reply.QueueReply.TheVariants as reply;
ghost use Rattle.volatile_cell.specs.Asked.{asked};
ghost use Rattle.volatile_cell.specs.StrategyRule.{clearing};
ghost use Rattle.queue_desk.specs.Asking.{AsksQueue};

use crate::queue_desk::QueueDesk;
use fetch_queue::Request;
use std::sync::Wait;
use turn_cell::{Turn, TurnPass};
use volatile_cell::{QueueCall, QueueReply};

/// Puts a pair at the front or at the back of a priority. It waits while other passes ask.
pub fn put<R: Wait>(
    rt: &R,
    queue: &Turn<QueueDesk>,
    asks: &mut TurnPass<QueueDesk>,
    viewer: u32,
    cell: u32,
    priority: u8,
    to_front: bool,
)
    requires { IsPassOf queue.now asks.old }
    ensures pass { IsPassOf queue.now asks.new }
    ensures asked { AsksQueue (view asks.old) (asked (call.Put viewer cell priority to_front) reply.Done ∷ []) (view asks.new) }
{
    let _done = queue.ask(
        rt,
        asks,
        QueueCall::Put {
            viewer,
            cell,
            priority,
            to_front,
        },
    );
}

/// Takes the next request. It waits while other passes ask.
pub fn take<R: Wait>(
    rt: &R,
    queue: &Turn<QueueDesk>,
    asks: &mut TurnPass<QueueDesk>,
) -> Option<Request>
    requires { IsPassOf queue.now asks.old }
    ensures pass { IsPassOf queue.now asks.new }
    ensures asked { AsksQueue (view asks.old) (asked call.Take (reply.Taken result) ∷ []) (view asks.new) }
    ensures inside { IfSome result (λ request. request.cell < (opened_at queue.now).cells) }
{
    match queue.ask(rt, asks, QueueCall::Take) {
        QueueReply::Taken(request) => request,
        _ => unreachable!(),
    }
}

/// Moves a viewer's requests to the prefetch list, and answers how many there were. It waits while other passes ask.
pub fn clear<R: Wait>(
    rt: &R,
    queue: &Turn<QueueDesk>,
    asks: &mut TurnPass<QueueDesk>,
    viewer: u32,
) -> u32
    requires { IsPassOf queue.now asks.old }
    ensures pass { IsPassOf queue.now asks.new }
    ensures asked { AsksQueue (view asks.old) (clearing viewer result ∷ []) (view asks.new) }
{
    match queue.ask(rt, asks, QueueCall::Clear { viewer }) {
        QueueReply::Cleared(count) => count,
        _ => unreachable!(),
    }
}
