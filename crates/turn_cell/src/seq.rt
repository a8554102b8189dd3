ghost use Rattle.std.specs.Prelude.{ℕ};

/// A value that answers calls, one at a time. What it means is the value itself, as clauses see
/// it. A step is defined for every number and every call.
pub trait Seq {
    /// What can be asked.
    type Call;

    /// What it answers.
    type Reply;

    /// The object's definition: of a value, the number of the pass that asks, the call, the reply
    /// and the next value.
    ghost steps: { Self → ℕ → Self.Call → Self.Reply → Self → Type 0 };

    /// Answers `call`, which the pass of the number `by` asks.
    fn step(&mut self, by: u32, call: Self::Call) -> Self::Reply
        ensures { steps self.old by call result self.new };
}
