// The queue of fetches behind a turn.
ghost use Rattle.std.specs.Prelude.{◌≡◌, ◌≤◌, IfOk};
ghost use Rattle.pass_roster.specs.Ends.{AllJoined};
ghost use Rattle.turn_cell.specs.PassView.{passes, starting};
ghost use Rattle.turn_cell.specs.Turn.{opened_at, view, IsPassOf};

use fetch_queue::{Queues, Request};
use queue_desk::{QueueDesk, clear, put, take};
use std::alloc::Global;
use std::process::Abort;
use std::sync::Wait;
use std::test::Fail;
use turn_cell::{Turn, TurnPass};

/// How many requests the prefetch list has room for, and what is taken after the other viewer's request.
const ROWS: [(u32, Option<Request>); 2] = [(4, Some(Request { viewer: 0, cell: 3 })), (0, None)];

/// An empty queue of two viewers, eight cells and two priorities behind a turn, with its first pass.
fn queue(
    rt: &impl Abort,
    alloc: Global,
    bound: u32,
) -> Result<(Turn<QueueDesk>, TurnPass<QueueDesk>), Fail>
    requires { bound ≤ 4096 }
    ensures pass { IfOk result (λ made. IsPassOf made.0 made.1) }
    ensures first { IfOk result (λ made. view made.1 ≡ starting (opened_at made.0)) }
{
    let queues = Queues::new(alloc, 2, 8, 2, bound)?;
    let Ok(made) = Turn::new(alloc, QueueDesk::new(queues)) else {
        panic!(rt; "there is memory for a turn")
    };
    Ok(made)
}

/// Asks for cell 3 for viewer 0, and by another pass for viewer 1, whose request comes after.
fn put_by_two<R: Wait>(rt: &R, turn: &Turn<QueueDesk>, first: &mut TurnPass<QueueDesk>)
    requires pass { IsPassOf turn.now first.old }
    requires first { view first.old ≡ starting (opened_at turn.now) }
    ensures pass { IsPassOf turn.now first.new }
    ensures number { (view first.new).number ≡ 0 }
    ensures joined { AllJoined passes (view first.new) }
{
    put(rt, turn, first, 0, 3, 0, false);
    let mut other = turn.split(first);
    put(rt, turn, &mut other, 1, 3, 1, false);
    turn.join(first, other);
}

#[test]
fn a_cleared_request_comes_last_whoever_asks(rt: HostRuntime) -> Result<(), Fail> {
    for (bound, next) in ROWS {
        let (turn, mut first) = queue(&rt, rt.alloc(), bound)?;
        put_by_two(&rt, &turn, &mut first);
        assert_eq!(rt; clear(&rt, &turn, &mut first, 0), 1);
        let there = Some(Request { viewer: 1, cell: 3 });
        assert_eq!(rt; take(&rt, &turn, &mut first), there);
        assert_eq!(rt; take(&rt, &turn, &mut first), next);
        assert_eq!(rt; take(&rt, &turn, &mut first), None);
        let _desk = turn.close(first);
    }
    Ok(())
}

#[test]
fn a_call_with_a_number_out_of_range_changes_nothing(rt: HostRuntime) -> Result<(), Fail> {
    let (turn, mut first) = queue(&rt, rt.alloc(), 4)?;
    put(&rt, &turn, &mut first, 0, 8, 0, false);
    put(&rt, &turn, &mut first, 2, 0, 0, false);
    put(&rt, &turn, &mut first, 0, 0, 2, false);
    assert_eq!(rt; take(&rt, &turn, &mut first), None);
    put(&rt, &turn, &mut first, 1, 7, 1, false);
    assert_eq!(rt; clear(&rt, &turn, &mut first, 2), 0);
    let there = Some(Request { viewer: 1, cell: 7 });
    assert_eq!(rt; take(&rt, &turn, &mut first), there);
    let _desk = turn.close(first);
    Ok(())
}
