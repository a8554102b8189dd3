//! The program: the levels of a pyramid, and the run of a script over a volume larger than memory.
#![tactic(auto)]

mod call;

use crate::call::Call;
use std::process::ExitCode;
use team_actors::OpenGate;
use thread_calls::viewrun;
use viewrun_calls::viewrun_alone;

/// The status of a call that ends for want of memory before its words are read.
const NO_MEMORY: u8 = 7;

fn main(rt: HostRuntime) -> ExitCode {
    let status = match Call::prepare(&rt) {
        Ok(call) => {
            let Call {
                words,
                mut script,
                stores,
                mut out,
            } = call;
            let words = words.as_slice();
            if are_for_threads(words) {
                viewrun(
                    &rt,
                    rt.alloc(),
                    words,
                    &mut script,
                    stores,
                    &mut out,
                    &OpenGate,
                )
                .status
            } else {
                viewrun_alone(rt.alloc(), words, &mut script, stores, &mut out).status
            }
        }
        Err(_) => NO_MEMORY,
    };
    ExitCode::from(status)
}

/// Whether the words are those of the call by threads.
fn are_for_threads(words: &[String]) -> bool {
    match words.first() {
        Some(command) => command.as_str() == "run" || command.as_str() == "demo",
        None => false,
    }
}
