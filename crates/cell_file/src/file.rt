// A cell from and to a store.
ghost use Rattle.std.specs.Prelude.{◌≡◌, ◌≢◌, ◌⊎◌, ℕ, ◌+◌, ◌*◌, ◌<◌, ◌≤◌, List, IsTrue, Some, true, [], ◌∷◌, ◌++◌, length, take, drop, slice_index, OnOk, OnErr, IfErr, Err};
ghost use Rattle.cell_grid.specs.Kind.{greatest_of};
ghost use Rattle.cell_grid.specs.Pyramid.{cells_of, voxels_of, sides_of, kind_of};
ghost use Rattle.cell_store.specs.Faults.{Rose};
ghost use Rattle.cell_store.specs.Store.{SameElsewhere, put_in, held_of};
ghost use Rattle.n5_block.specs.Block.{block};
ghost use Rattle.cell_file.specs.Asks.{IsAsked, IsPut};
ghost use Rattle.cell_file.specs.File.{IsCauseOf, LogsFetch, LogsRefusedFetch, LogsRefusedSave, put_entry};
ghost use Rattle.cell_file.specs.Keys.{edited_key, base_key};
ghost use Rattle.cell_file.specs.Standing.{width_of, standing, refusal_of};

use crate::asks::{get_base, get_edited, put_edited};
use crate::decide::decide;
use crate::shape::{limit, write_cell};
use crate::{FetchErr, Keys, SaveErr};
use cell_grid::Geometry;
use cell_store::{Got, Put, Store};

/// Fetches a cell's values to the front of a list, x fastest: those of the block under its edited key, where that
/// isn't held under its base key, and where neither is held zeros. The bytes go through `buf`, which may grow up to
/// the length of a block of the cell's full sides. After a refusal `out` is as it was.
pub fn fetch<S: Store>(
    store: &mut S,
    keys: &Keys,
    geometry: &Geometry,
    cell: u32,
    buf: &mut Vec<u8>,
    out: &mut [u64],
) -> Result<(), FetchErr>
    requires made { keys.now.levels ≡ geometry.now }
    requires cell { cell < cells_of geometry.now }
    requires room { voxels_of geometry.now cell ≤ length out.old }

    // What was asked of the store, whose answer decides.
    ensures asked { IsAsked geometry.now keys.now cell (S.contents store.old) (S.contents store.new) result (take (voxels_of geometry.now cell) out.new) }

    // Where the store tells what it holds: the values that it stands for, or why they are refused.
    ensures values { IsTrue (S.contents store.old).told → OnOk result (standing geometry.now keys.now (held_of (S.contents store.old)) cell ≡ Some (take (voxels_of geometry.now cell) out.new)) }
    ensures refused { IsTrue (S.contents store.old).told → IfErr result (λ err. IsCauseOf (refusal_of geometry.now keys.now (held_of (S.contents store.old)) cell) err) }
    ensures read_fault { result ≡ Err FetchErr.ReadFault → Rose (S.contents store.old).faults (S.contents store.new).faults }

    ensures fits { OnOk result ((i : ℕ) → slice_index (take (voxels_of geometry.now cell) out.new) i ≤ greatest_of (kind_of geometry.now cell)) }
    ensures unchanged { OnErr result (out.new ≡ out.old) }
    ensures rest { drop (voxels_of geometry.now cell) out.new ≡ drop (voxels_of geometry.now cell) out.old }

    // A get of the edited key is logged, and perhaps one of the base key.
    ensures logged { IsTrue (S.contents store.old).told_log → OnOk result (LogsFetch (S.contents store.old).log (S.contents store.new).log (edited_key geometry.now cell) (base_key geometry.now keys.now cell)) }
    ensures logged_refused { IsTrue (S.contents store.old).told_log → IfErr result (λ err. LogsRefusedFetch (S.contents store.old).log (S.contents store.new).log (edited_key geometry.now cell) (base_key geometry.now keys.now cell) err) }

    ensures held { IsTrue (S.contents store.old).told → (held_of (S.contents store.new)) ≡ (held_of (S.contents store.old)) }
    ensures told { (S.contents store.new).told ≡ (S.contents store.old).told }
    ensures told_log { (S.contents store.new).told_log ≡ (S.contents store.old).told_log }
    ensures never_falls { (S.contents store.old).faults ≤ (S.contents store.new).faults }
{
    let limit = limit(geometry, cell);
    match get_edited(store, keys, cell, limit, buf) {
        Got::Missing => {
            let got = get_base(store, keys, cell, limit, buf);
            decide(got, false, buf.as_slice(), geometry, cell, out)
        }
        got => decide(got, true, buf.as_slice(), geometry, cell, out),
    }
}

/// Saves a cell's values as the block of its cropped sides under its edited key. The block goes through `buf`.
pub fn save<S: Store>(
    store: &mut S,
    keys: &Keys,
    geometry: &Geometry,
    cell: u32,
    values: &[u64],
    buf: &mut [u8],
) -> Result<(), SaveErr>
    requires made { keys.now.levels ≡ geometry.now }
    requires cell { cell < cells_of geometry.now }
    requires count { length values.now ≡ voxels_of geometry.now cell }
    requires fits { (i : ℕ) → slice_index values.now i ≤ greatest_of (kind_of geometry.now cell) }
    requires room { 16 + width_of geometry.now cell * voxels_of geometry.now cell ≤ length buf.old }

    // What was put into the store, and the answer by that.
    ensures put { IsPut geometry.now cell (S.contents store.old) (S.contents store.new) values.now result }

    // Where the store tells what it holds: the block stands under the edited key, and the store for the values.
    ensures block { IsTrue (S.contents store.old).told → OnOk result ((key : List ℕ) → (held_of (S.contents store.new)) key ≡ put_in (held_of (S.contents store.old)) (edited_key geometry.now cell) (block (width_of geometry.now cell) (sides_of geometry.now cell) values.now) key) }
    ensures saved { IsTrue (S.contents store.old).told → OnOk result (standing geometry.now keys.now (held_of (S.contents store.new)) cell ≡ Some values.now) }
    ensures elsewhere { IsTrue (S.contents store.old).told → SameElsewhere (held_of (S.contents store.old)) (held_of (S.contents store.new)) (edited_key geometry.now cell) }
    ensures others { IsTrue (S.contents store.old).told → (other : ℕ) → other < cells_of geometry.now → other ≢ cell → standing geometry.now keys.now (held_of (S.contents store.new)) other ≡ standing geometry.now keys.now (held_of (S.contents store.old)) other }
    ensures write_fault { result ≡ Err SaveErr.WriteFault → Rose (S.contents store.old).faults (S.contents store.new).faults }

    // One put of the edited key is logged.
    ensures logged { IsTrue (S.contents store.old).told_log → OnOk result ((S.contents store.new).log ≡ (S.contents store.old).log ++ put_entry (edited_key geometry.now cell) true ∷ []) }
    ensures logged_refused { IsTrue (S.contents store.old).told_log → IfErr result (λ err. LogsRefusedSave (S.contents store.old).log (S.contents store.new).log (edited_key geometry.now cell) err) }

    ensures told { (S.contents store.new).told ≡ (S.contents store.old).told }
    ensures told_log { (S.contents store.new).told_log ≡ (S.contents store.old).told_log }
    ensures never_falls { (S.contents store.old).faults ≤ (S.contents store.new).faults }
{
    let len = write_cell(geometry, cell, values, buf);
    match put_edited(store, keys, cell, &buf[..len]) {
        Put::Done => Ok(()),
        Put::Failed => Err(SaveErr::WriteFault),
        Put::NoMemory => Err(SaveErr::Memory),
    }
}
