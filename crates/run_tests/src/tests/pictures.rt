// Pictures that are put into a store in memory.
use super::{Files, expect_left, store_of};
use cell_store::MemStore;
use run_report::{Shot, Unwritten};
use scale_pick::Picture;
use std::alloc::Global;
use std::process::Abort;
use std::test::Fail;
use view_script::Name;
use viewrun_calls::put_shots;

/// The file of the picture that is put.
const FILE: &[u8] = b"P5\n2 1\n255\n\x07\xff";

/// A picture of 2 x 1 pixels under a name.
fn shot_of(alloc: Global, name: &[u8], shown: bool) -> Result<Shot, Fail> {
    let mut picture = Picture::new(alloc, 2, 1)?;
    picture.set(0, 0, 7, 0);
    picture.set(1, 0, 255, 0);
    let name = Name::of(name).ok_or("no name")?;
    Ok(Shot {
        name,
        picture,
        shown,
    })
}

/// Puts pictures into a store of whose calls these fail, counted from 1. The names of those that were not put come back.
fn put_all(
    alloc: Global,
    names: &[(&[u8], bool)],
    fail: &[u64],
) -> Result<(MemStore, Vec<Unwritten>), Fail> {
    let mut shots = Vec::new(alloc);
    for (name, shown) in names {
        shots.push(shot_of(alloc, name, *shown)?)?;
    }
    let mut store = store_of(alloc, &[], fail)?;
    let mut unwritten = Vec::with_capacity(alloc, shots.len())?;
    put_shots(alloc, &mut store, shots.as_slice(), &mut unwritten);
    Ok((store, unwritten))
}

/// Compares the names of pictures that were not put, each for a fault.
fn expect_named(rt: &impl Abort, unwritten: &[Unwritten], names: &[&str]) -> Result<(), Fail> {
    assert_eq!(rt; unwritten.len(), names.len());
    for (told, name) in unwritten.iter().zip(names) {
        assert_eq!(rt; told.name.as_str(), *name);
        assert_eq!(rt; told.memory, false);
    }
    Ok(())
}

#[test]
fn a_picture_is_put_under_its_name(rt: HostRuntime) -> Result<(), Fail> {
    let shots: [(&[u8], bool); 2] = [(b"slice_0", true), (b"slice_1", false)];
    let left: Files = &[("views/slice_0.pgm", FILE)];
    let (store, unwritten) = put_all(rt.alloc(), &shots, &[])?;
    expect_named(&rt, unwritten.as_slice(), &[])?;
    expect_left(&rt, &store, &[], left, "one of two is shown")
}

#[test]
fn a_picture_that_is_not_put_is_named(rt: HostRuntime) -> Result<(), Fail> {
    let shots: [(&[u8], bool); 3] = [(b"a", true), (b"b", true), (b"c", true)];
    let left: Files = &[
        ("views/a.pgm", FILE),
        ("views/b.pgm", b"P5\n2 1"),
        ("views/c.pgm", FILE),
    ];
    let (store, unwritten) = put_all(rt.alloc(), &shots, &[2])?;
    expect_named(&rt, unwritten.as_slice(), &["b"])?;
    expect_left(&rt, &store, &[], left, "half of b is left")
}
