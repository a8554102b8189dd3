// What a command answers, and how it is written.
ghost use Rattle.std.specs.Prelude.{◌≡◌, Some};
ghost use Rattle.run_report.specs.Reply.{answer_text, frame_text, refusal_text, refuses, reply_text};

use crate::cause::Cause;
use crate::said::{One, Three};
use cell_file::AcquireErr;
use scale_pick::Painted;
use std::fmt;

/// Why a command was not done.
#[derive(Clone, Copy, Debug, PartialEq, Eq)]
pub enum Refusal {
    /// The level doesn't exist, or the position is outside it.
    Outside,
    /// The value is above the greatest of the level's kind.
    TooLarge { value: u64 },
    /// The cell could not be had.
    Acquire(AcquireErr),
}

/// What a command answers.
#[derive(Clone, Copy, Debug, PartialEq, Eq)]
pub enum Answer {
    Value(u64),
    Done,
    /// What became of a frame.
    Frame(Painted),
    /// How many requests were served by a load, by a cell that was there, and how many were refused.
    Fetched {
        loaded: u32,
        held: u32,
        refused: u32,
    },
    Refused(Refusal),
}

impl Answer {
    pub fn is_refusal(&self) -> bool
        ensures { result ≡ refuses self.now }
    {
        matches!(self, Answer::Refused(_))
    }
}

/// What a command answered, and which command: its phase, its actor in the phase and its call of the actor, each
/// counted from 0.
#[derive(Clone, Copy)]
pub struct Reply {
    pub phase: u32,
    pub actor: u32,
    pub call: u32,
    pub answer: Answer,
}

impl fmt::Display for Refusal {
    ghost output = { λ refusal. Some (refusal_text refusal) };

    fn fmt<W: fmt::Write>(&self, f: &mut fmt::Formatter<W>) -> fmt::Result {
        match *self {
            Refusal::Outside => write!(f, "outside"),
            Refusal::TooLarge { value } => One("too-large", value as u128).fmt(f),
            Refusal::Acquire(err) => Cause(err).fmt(f),
        }
    }
}

/// What became of a frame, to be written.
#[derive(Clone, Copy)]
struct Frame(Painted);

impl fmt::Display for Frame {
    ghost output = { λ frame. Some (frame_text frame.0) };

    fn fmt<W: fmt::Write>(&self, f: &mut fmt::Formatter<W>) -> fmt::Result {
        let Painted {
            wanted,
            complete,
            not_ready,
        } = self.0;
        if complete {
            write!(f, "frame level {wanted} complete")
        } else {
            write!(f, "frame level {wanted} partial {not_ready}")
        }
    }
}

impl fmt::Display for Answer {
    ghost output = { λ answer. Some (answer_text answer) };

    fn fmt<W: fmt::Write>(&self, f: &mut fmt::Formatter<W>) -> fmt::Result {
        match *self {
            Answer::Value(value) => One("value", value as u128).fmt(f),
            Answer::Done => write!(f, "done"),
            Answer::Frame(painted) => Frame(painted).fmt(f),
            Answer::Fetched {
                loaded,
                held,
                refused,
            } => {
                let loaded = One("fetched", loaded as u128);
                let held = One("held", held as u128);
                let refused = One("refused", refused as u128);
                Three(loaded, held, refused).fmt(f)
            }
            Answer::Refused(refusal) => write!(f, "refused {refusal}"),
        }
    }
}

impl fmt::Display for Reply {
    ghost output = { λ reply. Some (reply_text reply) };

    fn fmt<W: fmt::Write>(&self, f: &mut fmt::Formatter<W>) -> fmt::Result {
        let Reply {
            phase,
            actor,
            call,
            answer,
        } = *self;
        write!(f, "{phase}.{actor}.{call} {answer}")
    }
}
