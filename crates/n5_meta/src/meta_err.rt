// The rules that attributes break.

use crate::Member;
use thiserror::Error;

/// The first rule that attributes break, or want of memory.
#[derive(Clone, Copy, Debug, PartialEq, Eq, Error)]
pub enum MetaErr {
    #[error("not a JSON object")]
    NotJson,
    #[error("the member {member} is missing or has another type")]
    Missing { member: Member },
    #[error("an item is no whole number within its limits")]
    BadNumber { member: Member },
    #[error("the axes are not 3")]
    Axes { count: u64 },
    #[error("a data type that isn't read")]
    Kind,
    #[error("a compression other than raw")]
    Compressed,
    #[error("out of memory")]
    Memory,
}
