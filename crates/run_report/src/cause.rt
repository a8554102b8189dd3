// Why a cell could not be had, as it is written in a reply.
ghost use Rattle.std.specs.Prelude.{◌≡◌, Some};
ghost use Rattle.run_report.specs.Cause.{block_text, cause_text, key_text};

use crate::said::{One, Two};
use cell_file::AcquireErr;
use n5_block::BlockErr;
use std::fmt;

/// What is wrong with a block, to be written.
#[derive(Clone, Copy)]
pub struct BlockCause(pub BlockErr);

impl fmt::Display for BlockCause {
    ghost output = { λ cause. Some (block_text cause.0) };

    fn fmt<W: fmt::Write>(&self, f: &mut fmt::Formatter<W>) -> fmt::Result {
        match self.0 {
            BlockErr::Short { len, need } => Two("short", len as u128, need as u128).fmt(f),
            BlockErr::Mode { found } => One("mode", found as u128).fmt(f),
            BlockErr::Axes { found } => One("axes", found as u128).fmt(f),
            BlockErr::Side { axis, found } => Two("side", axis as u128, found as u128).fmt(f),
            BlockErr::Trailing { len, need } => Two("trailing", len as u128, need as u128).fmt(f),
        }
    }
}

/// Why a cell could not be had, to be written.
#[derive(Clone, Copy)]
pub struct Cause(pub AcquireErr);

impl fmt::Display for Cause {
    ghost output = { λ cause. Some (cause_text cause.0) };

    fn fmt<W: fmt::Write>(&self, f: &mut fmt::Formatter<W>) -> fmt::Result {
        match self.0 {
            AcquireErr::ReadFault => write!(f, "read-fault"),
            AcquireErr::WriteFault => write!(f, "write-fault"),
            AcquireErr::Malformed { edited, err } => {
                let key = key_name(edited);
                let cause = BlockCause(err);
                write!(f, "malformed {key} {cause}")
            }
            AcquireErr::TooLong { edited, len, limit } => {
                let lengths = Two(key_name(edited), len as u128, limit as u128);
                write!(f, "too-long {lengths}")
            }
            AcquireErr::Full => write!(f, "full"),
            AcquireErr::Memory => write!(f, "memory"),
        }
    }
}

/// The name of the key whose bytes decide.
fn key_name(edited: bool) -> &'static str
    ensures { result.now ≡ key_text edited }
{
    if edited { "edited" } else { "base" }
}
