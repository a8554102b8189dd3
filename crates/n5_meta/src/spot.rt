// Where attributes stand.
use std::fmt;

/// Which attributes of a pyramid: the setup's, or those of a level.
#[derive(Clone, Copy, Debug, PartialEq, Eq)]
pub enum Spot {
    Setup,
    Level(u8),
}

impl fmt::Display for Spot {
    fn fmt<W: fmt::Write>(&self, f: &mut fmt::Formatter<W>) -> fmt::Result {
        match self {
            Spot::Setup => write!(f, "the setup"),
            Spot::Level(level) => write!(f, "level {level}"),
        }
    }
}
