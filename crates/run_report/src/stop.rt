// Why a call ends without a report, as a status and as a line.
ghost use Rattle.std.specs.Prelude.{◌≡◌, IfOk, Some, string_bytes};
ghost use Rattle.run_report.specs.Stop.{script_kind_text, status_of_stop, stop_text};
ghost use Rattle.run_report.specs.Words.{line};

use crate::dataset::Unopened;
use crate::said::{One, Three};
use cell_grid::GridErr;
use n5_meta::OpenErr;
use std::alloc::{AllocError, Global};
use std::fmt;
use view_script::{ScriptErr, ScriptKind};

/// Why a call ends without a report.
#[derive(Clone, Copy)]
pub enum Stop {
    /// The words are outside their grammar.
    Usage,
    /// The script is refused: the line that breaks a rule, and the rule.
    Script { line: u32, kind: ScriptKind },
    /// The dataset could not be opened.
    Dataset(OpenErr),
    /// A store failed in a put before the run.
    WriteFault,
    Memory,
    /// The script could not be read.
    ReadFault,
    /// The number of slots is outside its limits.
    Slots { found: u64, low: u64, high: u64 },
}

impl Stop {
    /// The status of a call that ends so, where its line is printed whole.
    pub fn status(self) -> u8
        ensures { result ≡ status_of_stop self }
    {
        match self {
            Stop::Usage => 2,
            Stop::Script { .. } => 3,
            Stop::Dataset(err) => Unopened(err).status(),
            Stop::WriteFault => 5,
            Stop::Memory => 7,
            Stop::ReadFault => 8,
            Stop::Slots { .. } => 9,
        }
    }

    /// The line of a call that ends so, with its end.
    pub fn text(self, alloc: Global) -> Result<String, AllocError>
        ensures { IfOk result (λ text. string_bytes text ≡ line (stop_text self)) }
    {
        format!(in alloc; "{self}\n")
    }
}

fn kind_name(kind: ScriptKind) -> &'static str
    ensures { result.now ≡ script_kind_text kind }
{
    match kind {
        ScriptKind::NotText => "not-text",
        ScriptKind::UnknownWord => "unknown-word",
        ScriptKind::BadNumber => "bad-number",
        ScriptKind::MissingWord => "missing-word",
        ScriptKind::ExtraWord => "extra-word",
        ScriptKind::Limit => "limit",
        ScriptKind::Order => "order",
    }
}

impl fmt::Display for Stop {
    ghost output = { λ stop. Some (stop_text stop) };

    fn fmt<W: fmt::Write>(&self, f: &mut fmt::Formatter<W>) -> fmt::Result {
        match *self {
            Stop::Usage => write!(
                f,
                "usage: viewrun info ROOT | solo SCRIPT --slots N | run SCRIPT --slots N --fetchers N | demo N"
            ),
            Stop::Script { line, kind } => {
                let place = One("script line", line as u128);
                let name = kind_name(kind);
                write!(f, "{place} {name}")
            }
            Stop::Dataset(err) => Unopened(err).fmt(f),
            Stop::WriteFault => write!(f, "store write-fault"),
            Stop::Memory => write!(f, "memory"),
            Stop::ReadFault => write!(f, "script read-fault"),
            Stop::Slots { found, low, high } => {
                let found = One("slots", found as u128);
                let low = One("outside", low as u128);
                let high = One("to", high as u128);
                Three(found, low, high).fmt(f)
            }
        }
    }
}

impl From<AllocError> for Stop {
    ghost use Rattle.run_report.specs.declared.stop.Stop.TheVariants.{Memory};

    ghost from_gives = { λ _ stop. stop ≡ Memory };

    fn from(_err: AllocError) -> Stop {
        Stop::Memory
    }
}

impl From<ScriptErr> for Stop {
    ghost use Rattle.run_report.specs.Stop.{stop_of_script};

    ghost from_gives = { λ err stop. stop ≡ stop_of_script err };

    fn from(err: ScriptErr) -> Stop {
        match err {
            ScriptErr::At { line, kind } => Stop::Script { line, kind },
            ScriptErr::Memory => Stop::Memory,
        }
    }
}

impl From<OpenErr> for Stop {
    ghost use Rattle.run_report.specs.declared.stop.Stop.TheVariants.{Dataset};

    ghost from_gives = { λ err stop. stop ≡ Dataset err };

    fn from(err: OpenErr) -> Stop {
        Stop::Dataset(err)
    }
}

impl From<GridErr> for Stop {
    ghost use Rattle.n5_meta.specs.declared.open_err.OpenErr.TheVariants.{Grid};
    ghost use Rattle.run_report.specs.declared.stop.Stop.TheVariants.{Dataset};

    ghost from_gives = { λ err stop. stop ≡ Dataset (Grid err) };

    fn from(err: GridErr) -> Stop {
        Stop::Dataset(OpenErr::Grid { err })
    }
}
