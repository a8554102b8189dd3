// Worked examples of keys, fetching and saving.
ghost use Rattle.std.specs.Prelude.{◌≡◌, IfOk, length};

use crate::fixture::{level, pyramid};
use cell_file::{FetchErr, Keys, SaveErr, fetch, save};
use cell_grid::{Geometry, Kind};
use cell_store::{Got, MemStore, Put, Store};
use n5_block::BlockErr;
use plain_data::is_root_name;
use std::alloc::Global;
use std::collections::BTreeMap;
use std::test::Fail;

/// A pyramid of one level.
fn volume(alloc: Global, dims: [u64; 3], cell: [u32; 3]) -> Result<Geometry, Fail>
    ensures { IfOk result (λ geometry. length geometry ≡ 1) }
{
    Ok(Geometry::new(vec![in alloc; level(dims, cell, [1, 1, 1])?]?)?)
}

/// A store that holds nothing, whose calls of these numbers fail.
fn failing(alloc: Global, fail: &[u64]) -> Result<MemStore, Fail> {
    let fail = Vec::from_slice(alloc, fail)?;
    Ok(MemStore::new(alloc, BTreeMap::new(alloc), fail))
}

#[test]
fn cells_have_the_keys_of_their_places(rt: HostRuntime) -> Result<(), Fail> {
    let geometry = pyramid(rt.alloc())?;
    assert!(rt; is_root_name(b"pyr"));
    assert_eq!(rt; geometry.cells(), 5);
    let keys = Keys::new(&geometry, "pyr", false)?.copy()?;
    for (cell, base, edited) in [
        (1, "pyr/setup0/timepoint0/s0/1/0/0", "cells/s0/1/0/0"),
        (2, "pyr/setup0/timepoint0/s0/0/1/0", "cells/s0/0/1/0"),
        (4, "pyr/setup0/timepoint0/s1/0/0/0", "cells/s1/0/0/0"),
    ] {
        assert_eq!(rt; keys.base(cell).as_str(), base);
        assert_eq!(rt; keys.edited(cell).as_str(), edited);
    }
    Ok(())
}

#[test]
fn a_saved_cell_is_fetched(rt: HostRuntime) -> Result<(), Fail> {
    let alloc = rt.alloc();
    let geometry = volume(alloc, [6, 2, 2], [2, 2, 2])?;
    assert!(rt; is_root_name(b"vol"));
    assert_eq!(rt; geometry.cells(), 3);
    assert_eq!(rt; geometry.voxels(0), 8);
    assert_eq!(rt; geometry.kind(0), Kind::U8);
    let keys = Keys::new(&geometry, "vol", true)?;
    let mut store = failing(alloc, &[])?;
    let mut block = [0u8; 24];
    let values = [9, 0, 0, 0, 0, 0, 0, 0];
    let done = save(&mut store, &keys, &geometry, 0, &values, &mut block);
    assert_eq!(rt; done, Ok(()));

    let mut buf = Vec::new(alloc);
    assert_eq!(rt; store.get("cells/s0/0/0/0", 24, &mut buf), Got::Found);
    let saved = [
        0, 0, 0, 3, 0, 0, 0, 2, 0, 0, 0, 2, 0, 0, 0, 2, 9, 0, 0, 0, 0, 0, 0, 0,
    ];
    assert_eq!(rt; buf.as_slice(), saved.as_slice());
    let mut out = [7u64; 8];
    let got = fetch(&mut store, &keys, &geometry, 0, &mut buf, &mut out);
    assert_eq!(rt; got, Ok(()));
    assert_eq!(rt; out, values);
    Ok(())
}

#[test]
fn a_full_block_serves_a_cropped_cell(rt: HostRuntime) -> Result<(), Fail> {
    let alloc = rt.alloc();
    let geometry = volume(alloc, [5, 5, 5], [4, 4, 4])?;
    assert!(rt; is_root_name(b"vol"));
    assert_eq!(rt; geometry.cells(), 8);
    assert_eq!(rt; geometry.voxels(7), 1);
    let keys = Keys::new(&geometry, "vol", true)?;
    let mut store = failing(alloc, &[])?;
    let mut buf = Vec::new(alloc);
    let mut out = [7u64; 2];
    let void = fetch(&mut store, &keys, &geometry, 7, &mut buf, &mut out);
    assert_eq!(rt; void, Ok(()));
    assert_eq!(rt; out, [0, 7]);

    let mut block = [0u8; 80];
    block[..16].copy_from_slice(&[0, 0, 0, 3, 0, 0, 0, 4, 0, 0, 0, 4, 0, 0, 0, 4]);
    block[16] = 42;
    let wide = [0, 0, 0, 3, 0, 0, 0, 2, 0, 0, 0, 5, 0, 0, 0, 1];
    let err = BlockErr::Side { axis: 1, found: 5 };
    let refusal = FetchErr::Malformed { edited: false, err };
    for (bytes, want) in [(block.as_slice(), Ok(())), (wide.as_slice(), Err(refusal))] {
        assert_eq!(rt; store.put("vol/1/1/1", bytes), Put::Done);
        let got = fetch(&mut store, &keys, &geometry, 7, &mut buf, &mut out);
        assert_eq!(rt; got, want);
        assert_eq!(rt; out, [42, 7]);
    }
    Ok(())
}

#[test]
fn each_refusal_has_its_cause(rt: HostRuntime) -> Result<(), Fail> {
    let alloc = rt.alloc();
    let geometry = volume(alloc, [6, 2, 2], [2, 2, 2])?;
    assert!(rt; is_root_name(b"vol"));
    assert_eq!(rt; geometry.cells(), 3);
    assert_eq!(rt; geometry.voxels(0), 8);
    assert_eq!(rt; geometry.kind(0), Kind::U8);
    let keys = Keys::new(&geometry, "vol", true)?;
    let mut store = failing(alloc, &[1, 5])?;
    let mut buf = Vec::new(alloc);
    let mut out = [7u64; 8];
    let fault = fetch(&mut store, &keys, &geometry, 0, &mut buf, &mut out);
    assert_eq!(rt; fault, Err(FetchErr::ReadFault));

    assert_eq!(rt; store.put("vol/0/0/0", &[0; 25]), Put::Done);
    let long = FetchErr::TooLong {
        edited: false,
        len: 25,
        limit: 24,
    };
    let refused = fetch(&mut store, &keys, &geometry, 0, &mut buf, &mut out);
    assert_eq!(rt; refused, Err(long));
    let mut block = [0u8; 24];
    let unsaved = save(&mut store, &keys, &geometry, 0, &[1; 8], &mut block);
    assert_eq!(rt; unsaved, Err(SaveErr::WriteFault));
    let err = BlockErr::Short { len: 12, need: 16 };
    let short = FetchErr::Malformed { edited: true, err };
    let refused = fetch(&mut store, &keys, &geometry, 0, &mut buf, &mut out);
    assert_eq!(rt; refused, Err(short));
    assert_eq!(rt; out, [7; 8]);
    Ok(())
}
