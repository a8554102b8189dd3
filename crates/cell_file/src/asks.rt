// The gets and puts of a cell's keys.
ghost use Rattle.std.specs.Prelude.{◌<◌};
ghost use Rattle.cell_grid.specs.Pyramid.{cells_of};
ghost use Rattle.cell_store.specs.Store.{Gets, Puts};
ghost use Rattle.cell_file.specs.Keys.{AreKeys, base_key, edited_key};

use crate::Keys;
use cell_store::{Got, Put, Store};

/// Gets the bytes under a cell's edited key.
pub(crate) fn get_edited<S: Store>(
    store: &mut S,
    keys: &Keys,
    cell: u32,
    limit: u64,
    buf: &mut Vec<u8>,
) -> Got
    requires { cell < cells_of keys.now.levels }
    ensures { Gets (S.contents store.old) (S.contents store.new) (edited_key keys.now.levels cell) limit result buf.new.items }
{
    let edited = keys.edited(cell);
    store.get(edited.as_str(), limit, buf)
}

/// Gets the bytes under a cell's base key.
pub(crate) fn get_base<S: Store>(
    store: &mut S,
    keys: &Keys,
    cell: u32,
    limit: u64,
    buf: &mut Vec<u8>,
) -> Got
    requires { cell < cells_of keys.now.levels }
    ensures { Gets (S.contents store.old) (S.contents store.new) (base_key keys.now.levels keys.now cell) limit result buf.new.items }
{
    let base = keys.base(cell);
    store.get(base.as_str(), limit, buf)
}

/// Puts bytes under a cell's edited key.
pub(crate) fn put_edited<S: Store>(store: &mut S, keys: &Keys, cell: u32, bytes: &[u8]) -> Put
    requires { cell < cells_of keys.now.levels }
    ensures puts { Puts (S.contents store.old) (S.contents store.new) (edited_key keys.now.levels cell) bytes.now result }
    ensures keys { AreKeys keys.now }
{
    let edited = keys.edited(cell);
    store.put(edited.as_str(), bytes)
}
