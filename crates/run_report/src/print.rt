// A whole text given to a sink, in pieces as large as the sink takes.
ghost use Rattle.std.specs.Prelude.{◌≡◌};
ghost use Rattle.run_report.specs.Printed.{Prints, status_of_print};

use cell_store::{Gave, Sink};
use thiserror::Error;

/// Why a text is not printed whole.
#[derive(Clone, Copy, Debug, PartialEq, Eq, Error)]
pub enum PrintErr {
    #[error("the sink failed")]
    Failed,
    #[error("out of memory")]
    Memory,
}

impl PrintErr {
    /// The status of a call whose text is not printed whole.
    pub fn status(self) -> u8
        ensures { result ≡ status_of_print self }
    {
        match self {
            PrintErr::Failed => 6,
            PrintErr::Memory => 7,
        }
    }
}

/// Writes all of a text to a sink. After an error a part from the text's front is written.
pub fn print_bytes<K: Sink>(out: &mut K, text: &[u8]) -> Result<(), PrintErr>
    ensures { Prints (K.stream out.old) (K.stream out.new) text.now result }
{
    let mut rest = text;
    while !rest.is_empty() {
        match out.write(rest) {
            Gave::Wrote { n } => rest = &rest[n..],
            Gave::Failed => return Err(PrintErr::Failed),
            Gave::NoMemory => return Err(PrintErr::Memory),
        }
    }
    Ok(())
}
