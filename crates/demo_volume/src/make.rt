// The keys of the demonstration's pyramid, put into stores.
ghost use Rattle.std.specs.Prelude.{◌≡◌, ℕ, ◌+◌, ◌<◌, ◌≤◌, ◌⊎◌, Err, length, map, vec_len};
ghost use Rattle.demo_volume.specs.Maker.{IsFull};
ghost use Rattle.demo_volume.specs.Puts.{MadeKey, Makes, Tries, attributes, cell_key, cell_keys, keys_of, result_of};
ghost use Rattle.demo_volume.specs.declared.make_err.MakeErr.TheVariants.{Memory};

use crate::make_err::MakeErr;
use crate::maker::{Maker, block_of, maker_of};
use cell_grid::lane;
use cell_store::{Put, Store};
use std::alloc::Global;

/// How many cells the pyramid has.
const CELLS: u32 = 1152;

const SETUP_KEY: &str = "demo/setup0/attributes.json";

const SETUP: &str = "{\"downsamplingFactors\":[[1,1,1],[2,2,2]]}";

const FINE_KEY: &str = "demo/setup0/timepoint0/s0/attributes.json";

const FINE: &str =
    "{\"dimensions\":[512,512,64],\"blockSize\":[32,32,16],\"dataType\":\"uint16\",\"compression\":{\"type\":\"raw\"}}";

const COARSE_KEY: &str = "demo/setup0/timepoint0/s1/attributes.json";

const COARSE: &str =
    "{\"dimensions\":[256,256,32],\"blockSize\":[32,32,16],\"dataType\":\"uint16\",\"compression\":{\"type\":\"raw\"}}";

/// Makes the demonstration's pyramid from a number: three files of attributes in the first store, and then the block of each cell, in
/// ascending order, in the store that the cell belongs to. Each is one put, and after one that is not done there is no further one. The
/// levels are made before the first put.
pub fn make_pyramid<S: Store>(
    alloc: Global,
    number: u64,
    stores: &mut Vec<S>,
) -> Result<(), MakeErr>
    requires some { 1 ≤ vec_len stores.old }
    requires few { vec_len stores.old ≤ 16 }
    ensures { Makes (keys_of number (length stores.old.items)) (map S.contents stores.old.items) (map S.contents stores.new.items) result }
{
    let maker = maker_of(alloc, number)?;
    put_attributes(stores)?;
    put_cells(alloc, &maker, stores)
}

/// Puts the attributes of the setup and of the two levels.
fn put_attributes<S: Store>(stores: &mut Vec<S>) -> Result<(), MakeErr>
    requires some { 1 ≤ length stores.old.items }
    ensures made { Makes attributes (map S.contents stores.old.items) (map S.contents stores.new.items) result }
    ensures count { length stores.new.items ≡ length stores.old.items }
{
    put_text(stores, SETUP_KEY, SETUP)?;
    put_text(stores, FINE_KEY, FINE)?;
    put_text(stores, COARSE_KEY, COARSE)
}

/// Puts the blocks of all cells, in ascending order.
fn put_cells<S: Store>(alloc: Global, maker: &Maker, stores: &mut Vec<S>) -> Result<(), MakeErr>
    requires full { IsFull maker.now }
    requires some { 1 ≤ length stores.old.items }
    requires few { length stores.old.items ≤ 16 }
    ensures { Makes (cell_keys maker.now.fine.items maker.now.coarse.items (length stores.old.items)) (map S.contents stores.old.items) (map S.contents stores.new.items) result }
{
    for cell in 0..CELLS {
        put_cell(alloc, maker, cell, stores)?;
    }
    Ok(())
}

/// Puts the block of a cell into the store that the cell belongs to.
fn put_cell<S: Store>(
    alloc: Global,
    maker: &Maker,
    cell: u32,
    stores: &mut Vec<S>,
) -> Result<(), MakeErr>
    requires full { IsFull maker.now }
    requires cell { cell < 1152 }
    requires some { 1 ≤ length stores.old.items }
    requires few { length stores.old.items ≤ 16 }
    ensures tried { Tries (cell_key maker.now.fine.items maker.now.coarse.items (length stores.old.items) cell) (map S.contents stores.old.items) (map S.contents stores.new.items) result ⊎ ((map S.contents stores.new.items ≡ map S.contents stores.old.items) × (result ≡ Err Memory)) }
    ensures count { length stores.new.items ≡ length stores.old.items }
{
    let block = block_of(alloc, maker, cell)?;
    let key = maker.keys.base(cell);
    let lane = lane(cell, stores.len() as u32) as usize;
    put(stores, lane, key.as_str(), block.as_slice())
}

/// Puts a text under a key of the first store.
fn put_text<S: Store>(stores: &mut Vec<S>, key: &str, text: &str) -> Result<(), MakeErr>
    requires { 1 ≤ length stores.old.items }
    ensures tried { Tries (record { lane = 0; key = key.now; bytes = text.now }) (map S.contents stores.old.items) (map S.contents stores.new.items) result }
    ensures count { length stores.new.items ≡ length stores.old.items }
{
    put(stores, 0, key, text.as_bytes())
}

/// Puts bytes under a key of a store.
fn put<S: Store>(stores: &mut Vec<S>, lane: usize, key: &str, bytes: &[u8]) -> Result<(), MakeErr>
    requires { lane < length stores.old.items }
    ensures tried { Tries (record { lane = lane; key = key.now; bytes = bytes.now }) (map S.contents stores.old.items) (map S.contents stores.new.items) result }
    ensures count { length stores.new.items ≡ length stores.old.items }
{
    let put = stores[lane].put(key, bytes);
    result_of(put)
}

fn result_of(put: Put) -> Result<(), MakeErr>
    ensures { result ≡ result_of put }
{
    match put {
        Put::Done => Ok(()),
        Put::Failed => Err(MakeErr::WriteFault),
        Put::NoMemory => Err(MakeErr::Memory),
    }
}
