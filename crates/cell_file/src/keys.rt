// The keys of the cells of a dataset.
ghost use Rattle.std.specs.Prelude.{◌≡◌, ℕ, ◌+◌, ◌^◌, ◌<◌, ◌≤◌, ◌∷◌, ◌++◌, IsTrue, IfOk, length, slice_index, decimal};
ghost use Rattle.plain_data.specs.RootName.{is_root_name};
ghost use Rattle.cell_grid.specs.Pyramid.{cells_of, IsPyramid};
ghost use Rattle.arrayvec.specs.ArrayString.{array_string_len};
ghost use Rattle.cell_file.specs.Keys.{KeyNames, AreKeys, IsPlace, edited_key, base_key, level_root, grid_text};

use arrayvec::ArrayString;
use cell_grid::{Geometry, Memory};
use itoa::Buffer;
use std::marker::Model;

/// The keys of the cells of a dataset: its geometry, the name of its root, and whether the blocks of its one level lie
/// right under the root.
#[derive(Drop)]
pub struct Keys {
    geometry: Geometry,
    root: ArrayString<200>,
    plain: bool,
}

impl Model for Keys {
    ghost use Rattle.cell_file.specs.Keys.{KeyNames, AreKeys};

    ghost Value = { KeyNames };

    ghost view = { λ k. record { levels = k.geometry; root = k.root.bytes; plain = k.plain } };

    ghost invariant = { λ k. AreKeys (record { levels = k.geometry; root = k.root.bytes; plain = k.plain }) };
}

impl Keys {
    /// The keys of the cells of this geometry. A copy of it is kept.
    pub fn new(geometry: &Geometry, root: &str, plain: bool) -> Result<Keys, Memory>
        requires root { IsTrue (is_root_name root.now) }
        requires one_level { IsTrue plain → length geometry.now ≡ 1 }
        ensures { IfOk result (λ keys. keys ≡ record { levels = geometry.now; root = root.now; plain = plain }) }
    {
        let _levels = geometry.levels(); // read for what its contract tells the proof
        let geometry = geometry.copy()?;
        Ok(Keys {
            geometry,
            root: root_text(root),
            plain,
        })
    }

    /// Equal keys.
    pub fn copy(&self) -> Result<Keys, Memory>
        ensures { IfOk result (λ keys. keys ≡ self.now) }
    {
        Ok(Keys {
            geometry: self.geometry.copy()?,
            root: self.root,
            plain: self.plain,
        })
    }

    /// Whether the blocks of its one level lie right under the root.
    pub fn plain(&self) -> bool
        ensures plain { result ≡ self.now.plain }
        ensures keys { AreKeys self.now }
    {
        self.plain
    }

    /// The key of a cell's block in the dataset.
    pub fn base(&self, cell: u32) -> ArrayString<256>
        requires { cell < cells_of self.now.levels }
        ensures key { result.bytes ≡ base_key self.now.levels self.now cell }
        ensures keys { AreKeys self.now }
    {
        let (level, grid) = self.geometry.grid_of(cell);
        let mut key = level_root(self.root.as_str(), self.plain, level);
        push_grid(&mut key, grid);
        key
    }

    /// The key of a cell's block once the cell was edited.
    pub fn edited(&self, cell: u32) -> ArrayString<256>
        requires { cell < cells_of self.now.levels }
        ensures key { result.bytes ≡ edited_key self.now.levels cell }
        ensures keys { AreKeys self.now }
    {
        let (level, grid) = self.geometry.grid_of(cell);
        let mut key = ArrayString::new();
        key.push_str("cells/s");
        push_number(&mut key, level as u32);
        push_grid(&mut key, grid);
        key
    }
}

/// A root name as a text of its own.
fn root_text(root: &str) -> ArrayString<200>
    requires { IsTrue (is_root_name root.now) }
    ensures { result.bytes ≡ root.now }
{
    let mut text = ArrayString::new();
    text.push_str(root);
    text
}

/// The part of a base key that is that of the cell's level.
fn level_root(root: &str, plain: bool, level: u8) -> ArrayString<256>
    requires root { length root.now ≤ 200 }
    requires level { level < 8 }
    ensures text { result.bytes ≡ level_root root.now plain level }
    ensures room { array_string_len result ≤ 226 }
{
    let mut key = ArrayString::new();
    key.push_str(root);
    if !plain {
        key.push_str("/setup0/timepoint0/s");
        push_number(&mut key, level as u32);
    }
    key
}

/// Appends a position in the grid.
fn push_grid(key: &mut ArrayString<256>, grid: [u32; 3])
    requires room { array_string_len key.old ≤ 226 }
    requires place { IsPlace grid }
    ensures { key.new.bytes ≡ key.old.bytes ++ grid_text grid }
{
    push_part(key, grid[0]);
    push_part(key, grid[1]);
    push_part(key, grid[2]);
}

/// Appends a stroke and a number.
fn push_part(key: &mut ArrayString<256>, n: u32)
    requires room { array_string_len key.old ≤ 249 }
    requires few { n ≤ 2 ^ 18 }
    ensures text { key.new.bytes ≡ key.old.bytes ++ (47 ∷ decimal n) }
    ensures len { array_string_len key.new ≤ array_string_len key.old + 7 }
{
    key.push_str("/");
    push_number(key, n);
}

/// Appends a number of at most six digits.
fn push_number(key: &mut ArrayString<256>, n: u32)
    requires room { array_string_len key.old ≤ 250 }
    requires few { n ≤ 2 ^ 18 }
    ensures text { key.new.bytes ≡ key.old.bytes ++ decimal n }
    ensures len { array_string_len key.new ≤ array_string_len key.old + 6 }
{
    let mut digits = Buffer::new();
    key.push_str(digits.format(n));
}
