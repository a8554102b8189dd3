// What `info` prints of a pyramid.
ghost use Rattle.std.specs.Prelude.{◌≡◌, ◌<◌, ◌≤◌, ◌^◌, IfOk, Some, string_bytes};
ghost use Rattle.std.specs.Int.{div_ceil};
ghost use Rattle.cell_grid.specs.Grid.{IsGrid, cell_count};
ghost use Rattle.cell_grid.specs.Pyramid.{cells_in};
ghost use Rattle.run_report.specs.Info.{described_text, info_text as pyramid_text, kind_text, level_text, three_text};

use cell_grid::{Extent, Geometry, Kind, Level};
use std::alloc::{AllocError, Global};
use std::fmt::{self, Write};

/// The text of a pyramid: a line for its counts of levels and cells, and a line for each level.
pub fn info_text(alloc: Global, geometry: &Geometry) -> Result<String, AllocError>
    ensures { IfOk result (λ text. string_bytes text ≡ pyramid_text geometry.now) }
{
    let mut text = String::new(alloc);
    let levels = geometry.levels();
    let cells = geometry.cells();
    writeln!(text, "levels {levels} cells {cells}")?;
    for number in 0..levels {
        let level = description_of(number, geometry.level(number));
        writeln!(text, "{level}")?;
    }
    Ok(text)
}

/// Three sides in voxels, to be written with spaces between them.
#[derive(Clone, Copy)]
struct Long([u64; 3]);

impl fmt::Display for Long {
    ghost output = { λ sides. Some (three_text sides.0) };

    #[tactic(auto, unfolding(crate::specs::Info::three_text))]
    fn fmt<W: fmt::Write>(&self, f: &mut fmt::Formatter<W>) -> fmt::Result {
        let [x, y, z] = self.0;
        write!(f, "{x} {y} {z}")
    }
}

/// Three numbers of 32 bits, to be written in the same way.
#[derive(Clone, Copy)]
struct Short([u32; 3]);

impl fmt::Display for Short {
    ghost output = { λ sides. Some (three_text sides.0) };

    #[tactic(auto, unfolding(crate::specs::Info::three_text))]
    fn fmt<W: fmt::Write>(&self, f: &mut fmt::Formatter<W>) -> fmt::Result {
        let [x, y, z] = self.0;
        write!(f, "{x} {y} {z}")
    }
}

/// A level with its number and its count of cells, to be written.
#[derive(Clone, Copy)]
struct Described {
    number: u8,
    kind: Kind,
    size: [u64; 3],
    cell: [u32; 3],
    factor: [u32; 3],
    cells: u64,
}

fn description_of(number: u8, level: &Level) -> Described
    requires { IsGrid level.now.extent }
    ensures { described_text result ≡ level_text number level.now (cells_in level.now) }
{
    let Level {
        extent,
        factor,
        kind,
    } = *level;
    Described {
        number,
        kind,
        size: extent.dims(),
        cell: extent.cell(),
        factor,
        cells: count_of(&extent),
    }
}

impl fmt::Display for Described {
    ghost output = { λ described. Some (described_text described) };

    fn fmt<W: fmt::Write>(&self, f: &mut fmt::Formatter<W>) -> fmt::Result {
        let Described {
            number,
            kind,
            size,
            cell,
            factor,
            cells,
        } = *self;
        let kind = kind_name(kind);
        let size = Long(size);
        let cell = Short(cell);
        let factor = Short(factor);
        write!(f, "level {number} kind {kind} size {size}")?;
        write!(f, " cell {cell} factor {factor} cells {cells}")
    }
}

fn kind_name(kind: Kind) -> &'static str
    ensures { result.now ≡ kind_text kind }
{
    match kind {
        Kind::U8 => "uint8",
        Kind::U16 => "uint16",
        Kind::U32 => "uint32",
        Kind::U64 => "uint64",
    }
}

/// How many cells a box has.
#[tactic(auto, using(crate::proofs::InfoLemmas::plane_fits))]
fn count_of(extent: &Extent) -> u64
    requires { IsGrid extent.now }
    ensures { result ≡ cell_count extent.now.dims extent.now.cell }
{
    let dims = extent.dims();
    let cell = extent.cell();
    let across = along(dims[0], cell[0]);
    let down = along(dims[1], cell[1]);
    let deep = along(dims[2], cell[2]);
    across * down * deep
}

/// How many cells lie along an axis.
#[tactic(auto, using(crate::proofs::InfoLemmas::few_along))]
fn along(dim: u64, cell: u32) -> u64
    requires dim { dim < 2 ^ 31 }
    requires cell { 0 < cell }
    ensures count { result ≡ div_ceil dim cell }
    ensures few { result ≤ 2 ^ 31 }
{
    dim.div_ceil(u64::from(cell))
}
