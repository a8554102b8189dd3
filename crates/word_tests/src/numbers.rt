// A queue of at most two numbers behind a turn.
use std::test::Fail;
use turn_cell::{Seq, Turn};

#[derive(Drop)]
struct Numbers {
    front: Option<u32>,
    back: Option<u32>,
}

#[derive(Drop)]
enum Call {
    Put(u32),
    Take,
    Clear,
}

#[derive(Drop, Debug, PartialEq)]
enum Reply {
    Done,
    Full,
    Number(Option<u32>),
    Cleared(u32),
}

impl Seq for Numbers {
    type Call = Call;

    type Reply = Reply;

    ghost use Rattle.std.specs.Prelude.{◌≡◌, ◌+◌, ℕ, cond, is_some, MatchOption, Some, None};
    ghost use Rattle.word_tests.specs.declared.numbers.Call.TheVariants.{Put, Take, Clear};
    ghost use Rattle.word_tests.specs.declared.numbers.Reply.TheVariants.{Done, Full, Number, Cleared};

    ghost steps = { λ x by call reply y. elim call as (λ _. Type 0) [ Put n ↦ MatchOption x.front ((reply ≡ Done) × (y ≡ record x { front = Some n })) (λ _. MatchOption x.back ((reply ≡ Done) × (y ≡ record x { back = Some n })) (λ _. (reply ≡ Full) × (y ≡ x))) | Take ↦ (reply ≡ Number x.front) × (y ≡ record { front = x.back; back = None }) | Clear ↦ (reply ≡ Cleared (cond (is_some x.front) 1 0 + cond (is_some x.back) 1 0)) × (y ≡ record { front = None; back = None }) ] };

    fn step(&mut self, by: u32, call: Call) -> Reply {
        let _ = by;
        match call {
            Call::Put(n) => match (self.front, self.back) {
                (None, _) => {
                    self.front = Some(n);
                    Reply::Done
                }
                (Some(_), None) => {
                    self.back = Some(n);
                    Reply::Done
                }
                (Some(_), Some(_)) => Reply::Full,
            },
            Call::Take => {
                let front = self.front;
                self.front = self.back;
                self.back = None;
                Reply::Number(front)
            }
            Call::Clear => {
                let count = u32::from(self.front.is_some()) + u32::from(self.back.is_some());
                self.front = None;
                self.back = None;
                Reply::Cleared(count)
            }
        }
    }
}

#[test]
fn a_queue_answers_in_turn(rt: HostRuntime) -> Result<(), Fail> {
    let empty = Numbers {
        front: None,
        back: None,
    };
    let Ok((turn, mut first)) = Turn::new(rt.alloc(), empty) else {
        panic!(rt; "there is memory for a turn")
    };
    assert_eq!(rt; turn.ask(&rt, &mut first, Call::Put(3)), Reply::Done);
    let mut other = turn.split(&mut first);
    assert_eq!(rt; turn.ask(&rt, &mut other, Call::Put(5)), Reply::Done);
    turn.join(&mut first, other);
    assert_eq!(rt; turn.ask(&rt, &mut first, Call::Put(7)), Reply::Full);
    assert_eq!(rt;
        turn.ask(&rt, &mut first, Call::Take),
        Reply::Number(Some(3))
    );
    assert_eq!(rt; turn.ask(&rt, &mut first, Call::Clear), Reply::Cleared(1));
    assert_eq!(rt; turn.ask(&rt, &mut first, Call::Take), Reply::Number(None));
    assert_eq!(rt; turn.ask(&rt, &mut first, Call::Put(9)), Reply::Done);
    let numbers = turn.close(first);
    assert!(rt; numbers.front == Some(9) && numbers.back.is_none());
    Ok(())
}
