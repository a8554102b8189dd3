// Why bytes are no script.
use thiserror::Error;

/// A rule of the lines of scripts.
#[derive(Clone, Copy, Debug, PartialEq, Eq, Error)]
pub enum ScriptKind {
    #[error("the line is not UTF-8")]
    NotText,
    #[error("a word is not known")]
    UnknownWord,
    #[error("a word is not a number")]
    BadNumber,
    #[error("a word is missing")]
    MissingWord,
    #[error("a word too many")]
    ExtraWord,
    #[error("a limit is passed")]
    Limit,
    #[error("the line may not stand here")]
    Order,
}

/// Why a script is refused.
#[derive(Clone, Copy, Debug, PartialEq, Eq, Error)]
pub enum ScriptErr {
    /// The first rule that is broken, and the number of the line that breaks it, from 1. Line 0 is the
    /// script as a whole, which is too long.
    #[error("a line breaks a rule")]
    At { line: u32, kind: ScriptKind },
    #[error("out of memory")]
    Memory,
}
