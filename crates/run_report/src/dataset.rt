// Why a dataset is refused, as it is written.
ghost use Rattle.std.specs.Prelude.{◌≡◌, Some};
ghost use Rattle.run_report.specs.Dataset.{grid_cause_text, meta_text, open_text, refused_text, spot_text, status_of_open, opening_wants_memory};

use crate::said::{One, Two};
use cell_grid::GridErr;
use n5_meta::{MetaErr, OpenErr, Spot};
use std::fmt;

/// The attributes that are refused, to be written.
#[derive(Clone, Copy)]
pub struct Attributes(pub Spot);

impl fmt::Display for Attributes {
    ghost output = { λ attributes. Some (spot_text attributes.0) };

    fn fmt<W: fmt::Write>(&self, f: &mut fmt::Formatter<W>) -> fmt::Result {
        match self.0 {
            Spot::Setup => write!(f, "setup"),
            Spot::Level(level) => One("level", level as u128).fmt(f),
        }
    }
}

/// What is wrong with attributes, to be written.
#[derive(Clone, Copy)]
pub struct AttributeCause(pub MetaErr);

impl fmt::Display for AttributeCause {
    ghost output = { λ cause. Some (meta_text cause.0) };

    fn fmt<W: fmt::Write>(&self, f: &mut fmt::Formatter<W>) -> fmt::Result {
        match self.0 {
            MetaErr::NotJson => write!(f, "not-json"),
            MetaErr::Missing { member } => write!(f, "missing {member}"),
            MetaErr::BadNumber { member } => write!(f, "bad-number {member}"),
            MetaErr::Axes { count } => One("axes", count as u128).fmt(f),
            MetaErr::Kind => write!(f, "kind"),
            MetaErr::Compressed => write!(f, "compressed"),
            MetaErr::Memory => write!(f, "memory"),
        }
    }
}

/// Why a grid is refused, to be written.
#[derive(Clone, Copy)]
pub struct GridCause(pub GridErr);

impl fmt::Display for GridCause {
    ghost output = { λ cause. Some (grid_cause_text cause.0) };

    fn fmt<W: fmt::Write>(&self, f: &mut fmt::Formatter<W>) -> fmt::Result {
        match self.0 {
            GridErr::ZeroSide { axis } => One("zero-side", axis as u128).fmt(f),
            GridErr::SideTooLarge { axis, found } => Two(
                "side-too-large",
                axis as u128,
                found as u128,
            ).fmt(f),
            GridErr::CellTooLarge { voxels } => One("cell-too-large", voxels).fmt(f),
            GridErr::TooManyCells { count } => One("too-many-cells", count).fmt(f),
            GridErr::NoLevel => write!(f, "no-level"),
            GridErr::TooManyLevels { count } => One("too-many-levels", count as u128).fmt(f),
            GridErr::ZeroFactor { level, axis } => Two(
                "zero-factor",
                level as u128,
                axis as u128,
            ).fmt(f),
            GridErr::Memory => write!(f, "memory"),
        }
    }
}

/// Why a dataset is refused, to be written.
#[derive(Clone, Copy)]
struct Refused(OpenErr);

impl fmt::Display for Refused {
    ghost output = { λ refused. Some (refused_text refused.0) };

    fn fmt<W: fmt::Write>(&self, f: &mut fmt::Formatter<W>) -> fmt::Result {
        match self.0 {
            OpenErr::Meta { spot, err } => {
                let place = Attributes(spot);
                let cause = AttributeCause(err);
                write!(f, "dataset {place} {cause}")
            }
            OpenErr::NoAttributes { spot } => {
                let place = Attributes(spot);
                write!(f, "dataset {place} no-attributes")
            }
            OpenErr::TooLong { spot, len } => {
                let place = Attributes(spot);
                let long = One("too-long", len as u128);
                write!(f, "dataset {place} {long}")
            }
            OpenErr::LevelCount { count } => One("dataset setup level-count", count as u128).fmt(f),
            OpenErr::Grid { err } => {
                let cause = GridCause(err);
                write!(f, "dataset grid {cause}")
            }
            OpenErr::ReadFault => write!(f, "store read-fault"),
            OpenErr::Memory => write!(f, "memory"),
        }
    }
}

/// Why a dataset was not opened, to be written.
#[derive(Clone, Copy)]
pub struct Unopened(pub OpenErr);

impl Unopened {
    /// Whether memory was wanting.
    fn wants_memory(self) -> bool
        ensures { result ≡ opening_wants_memory self.0 }
    {
        match self.0 {
            OpenErr::Memory => true,
            OpenErr::Meta { err, .. } => matches!(err, MetaErr::Memory),
            OpenErr::Grid { err } => matches!(err, GridErr::Memory),
            _ => false,
        }
    }

    /// The status of a call that could not open its dataset: 7 for want of memory, 5 for a fault of the store, else 4.
    pub fn status(self) -> u8
        ensures { result ≡ status_of_open self.0 }
    {
        if self.wants_memory() {
            7
        } else if matches!(self.0, OpenErr::ReadFault) {
            5
        } else {
            4
        }
    }
}

impl fmt::Display for Unopened {
    ghost output = { λ unopened. Some (open_text unopened.0) };

    fn fmt<W: fmt::Write>(&self, f: &mut fmt::Formatter<W>) -> fmt::Result {
        if self.wants_memory() {
            write!(f, "memory")
        } else {
            Refused(self.0).fmt(f)
        }
    }
}
