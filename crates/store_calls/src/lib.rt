//! Words about calls of stores: which store was asked what, in which order, and what it answered. There is no code to run here:
//! contracts of the crates above cite the definitions.
#![tactic(auto)]

ghost use Rattle.store_calls.specs.Laws.{CallsCompose, OpenCallsCompose, PutsAnswerAlike};

/// Calls follow on from where others led.
pub fn calls_compose()
    ensures { CallsCompose }
{}

/// Calls leave a key open as the later ones do, from what the earlier ones left.
pub fn open_calls_compose()
    ensures { OpenCallsCompose }
{}

/// Puts that failed alike, and alike found no memory, have the same answer.
pub fn puts_answer_alike()
    ensures { PutsAnswerAlike }
{}
