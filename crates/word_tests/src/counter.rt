// A counter behind a turn, with two kinds of calls.
ghost use Rattle.std.specs.Prelude.{◌≡◌, ◌+◌, ◌%◌, ◌^◌, IfSome};
ghost use Rattle.turn_cell.specs.Turn.{IsPassOf};

use std::alloc::Global;
use std::sync::Wait;
use std::test::Fail;
use std::thread::{Threads, join};
use turn_cell::{Seq, Turn, TurnPass, each_call_is_a_step, turns_cross_threads};

#[derive(Drop)]
struct Counter {
    count: u64,
}

#[derive(Drop)]
enum Ask {
    Add(u64),
    Get,
}

impl Seq for Counter {
    type Call = Ask;

    type Reply = u64;

    ghost use Rattle.std.specs.Prelude.{ℕ};
    ghost use Rattle.word_tests.specs.declared.counter.Ask.TheVariants.{Add, Get};

    ghost steps = { λ x by call reply y. (reply ≡ x.count) × elim call as (λ _. Type 0) [ Add n ↦ y.count ≡ (x.count + n) % 2 ^ 64 | Get ↦ y ≡ x ] };

    // Answers the count before the call.
    fn step(&mut self, by: u32, call: Ask) -> u64 {
        let _ = by;
        let count = self.count;
        match call {
            Ask::Add(n) => self.count = count.wrapping_add(n),
            Ask::Get => {}
        }
        count
    }
}

fn add_many<R: Wait>(rt: &R, turn: &Turn<Counter>, mut pass: TurnPass<Counter>) -> TurnPass<Counter>
    requires { IsPassOf turn.now pass }
    ensures { IsPassOf turn.now result }
{
    for _ in 0..100u32 {
        turn.ask(rt, &mut pass, Ask::Add(1));
    }
    pass
}

fn count_in_threads<R: Threads + Wait + Sync>(rt: &R, alloc: Global) -> Option<(u64, u64)> {
    let Ok((turn, mut first)) = Turn::new(alloc, Counter { count: 0 }) else {
        return None;
    };
    let one = turn.split(&mut first);
    let two = turn.split(&mut first);
    let shared = &turn;
    let (one, two) = join(
        rt,
        move ||
            requires { IsPassOf shared.now one }
            ensures { IsPassOf shared.entry.now result }
        { add_many(rt, shared, one) },
        move ||
            requires { IsPassOf shared.now two }
            ensures { IsPassOf shared.entry.now result }
        { add_many(rt, shared, two) },
    );
    turn.join(&mut first, one);
    turn.join(&mut first, two);
    let last = turn.ask(rt, &mut first, Ask::Get);
    let counter = turn.close(first);
    Some((last, counter.count))
}

// The replies of a first pass that is alone follow from the contracts.
fn count_alone<R: Wait>(rt: &R, alloc: Global) -> Option<(u64, u64)>
    ensures { IfSome result (λ r. (r.0 ≡ 5) × (r.1 ≡ 5)) }
{
    let Ok((turn, mut first)) = Turn::new(alloc, Counter { count: 0 }) else {
        return None;
    };
    turn.ask(rt, &mut first, Ask::Add(5));
    let last = turn.ask(rt, &mut first, Ask::Get);
    let counter = turn.close(first);
    Some((last, counter.count))
}

#[test]
fn a_pass_that_is_alone_is_answered_alone(rt: HostRuntime) -> Result<(), Fail> {
    assert_eq!(rt; count_alone(&rt, rt.alloc()), Some((5, 5)));
    Ok(())
}

#[test]
fn two_threads_count_through_a_turn(rt: HostRuntime) -> Result<(), Fail> {
    each_call_is_a_step::<Counter>();
    turns_cross_threads::<Counter>();
    assert_eq!(rt; count_in_threads(&rt, rt.alloc()), Some((200, 200)));
    Ok(())
}
