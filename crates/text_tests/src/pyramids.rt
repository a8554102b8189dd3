// Worked examples of pyramids, opened from their attributes.

use cell_grid::{GridErr, Kind};
use cell_store::MemStore;
use n5_meta::{Member, MetaErr, OpenErr, Spot, open_pyramid};
use std::alloc::{AllocError, Global};
use std::collections::BTreeMap;
use std::test::Fail;

const SETUP: &str = r#"{"downsamplingFactors":[[1,1,1],[2,2,1]]}"#;

const LEVEL_0: &str =
    r#"{"dimensions":[4,4,1],"blockSize":[2,2,1],"dataType":"uint8","compression":{"type":"raw"}}"#;

const LEVEL_1: &str =
    r#"{"dimensions":[2,2,1],"blockSize":[2,2,1],"dataType":"uint8","compression":{"type":"raw"}}"#;

/// A store with the attributes of two levels, whose get of the number `fail` fails.
fn levels_in(alloc: Global, setup: &str, level_0: &str, fail: u64) -> Result<MemStore, AllocError> {
    let mut held = BTreeMap::new(alloc);
    hold(alloc, &mut held, "pyr/setup0/attributes.json", setup)?;
    hold(
        alloc,
        &mut held,
        "pyr/setup0/timepoint0/s0/attributes.json",
        level_0,
    )?;
    hold(
        alloc,
        &mut held,
        "pyr/setup0/timepoint0/s1/attributes.json",
        LEVEL_1,
    )?;
    let fail = Vec::from_slice(alloc, &[fail])?;
    Ok(MemStore::new(alloc, held, fail))
}

/// Puts a text under a key.
fn hold(
    alloc: Global,
    held: &mut BTreeMap<String, Vec<u8>>,
    key: &str,
    text: &str,
) -> Result<(), AllocError> {
    let key = String::from_str(alloc, key)?;
    let bytes = Vec::from_slice(alloc, text.as_bytes())?;
    held.insert(key, bytes)?;
    Ok(())
}

/// Why a pyramid of two levels is refused with these attributes of its setup and of level 0.
fn refusal(alloc: Global, setup: &str, level_0: &str) -> Result<Option<OpenErr>, AllocError> {
    let mut store = levels_in(alloc, setup, level_0, 0)?;
    Ok(open_pyramid(alloc, &mut store, "pyr").err())
}

#[test]
fn a_pyramid_opens_to_its_geometry(rt: HostRuntime) -> Result<(), Fail> {
    let alloc = rt.alloc();
    let mut store = levels_in(alloc, SETUP, LEVEL_0, 0)?;
    let geometry = open_pyramid(alloc, &mut store, "pyr")?;
    assert_eq!(rt; geometry.cells(), 5);
    assert_eq!(rt; geometry.levels(), 2);
    for (number, dims, factor) in [(0, [4, 4, 1], [1, 1, 1]), (1, [2, 2, 1], [2, 2, 1])] {
        let level = geometry.level(number);
        assert_eq!(rt; level.extent.dims(), dims);
        assert_eq!(rt; level.extent.cell(), [2, 2, 1]);
        assert_eq!(rt; level.factor, factor);
        assert_eq!(rt; level.kind, Kind::U8);
    }
    Ok(())
}

#[test]
fn a_setup_without_attributes_is_refused(rt: HostRuntime) -> Result<(), Fail> {
    let alloc = rt.alloc();
    let mut store = MemStore::new(alloc, BTreeMap::new(alloc), Vec::new(alloc));
    let spot = Spot::Setup;
    let found = open_pyramid(alloc, &mut store, "pyr").err();
    assert_eq!(rt; found, Some(OpenErr::NoAttributes { spot }));
    Ok(())
}

#[test]
fn attributes_of_a_level_are_refused_at_their_edges(rt: HostRuntime) -> Result<(), Fail> {
    let point = MetaErr::BadNumber {
        member: Member::BlockSize,
    };
    let missing = MetaErr::Missing {
        member: Member::Compression,
    };
    for (level_0, err) in [
        (
            r#"{"dimensions":[4,4],"blockSize":[2,2,1],"dataType":"uint8","compression":{"type":"raw"}}"#,
            MetaErr::Axes { count: 2 },
        ),
        (
            r#"{"dimensions":[4,4,1],"blockSize":[2.0,2,1],"dataType":"uint8","compression":{"type":"raw"}}"#,
            point,
        ),
        (
            r#"{"dimensions":[4,4,1],"blockSize":[2,2,1],"dataType":"float32","compression":{"type":"raw"}}"#,
            MetaErr::Kind,
        ),
        (
            r#"{"dimensions":[4,4,1],"blockSize":[2,2,1],"dataType":"uint8"}"#,
            missing,
        ),
        (
            r#"{"dimensions":[4,4,1],"blockSize":[2,2,1],"dataType":"uint8","compression":{"type":"gzip"}}"#,
            MetaErr::Compressed,
        ),
    ] {
        let spot = Spot::Level(0);
        let found = refusal(rt.alloc(), SETUP, level_0)?;
        assert_eq!(rt; found, Some(OpenErr::Meta { spot, err }), "{level_0}");
    }
    Ok(())
}

#[test]
fn factors_are_refused_by_their_first_broken_rule(rt: HostRuntime) -> Result<(), Fail> {
    let axes = OpenErr::Meta {
        spot: Spot::Setup,
        err: MetaErr::Axes { count: 2 },
    };
    let third = OpenErr::NoAttributes {
        spot: Spot::Level(2),
    };
    let zero = OpenErr::Grid {
        err: GridErr::ZeroFactor { level: 1, axis: 1 },
    };
    for (setup, want) in [
        (r#"{"downsamplingFactors":[[1,1]]}"#, axes),
        (
            r#"{"downsamplingFactors":[]}"#,
            OpenErr::LevelCount { count: 0 },
        ),
        (
            r#"{"downsamplingFactors":[[0,1,1],[1,1,1],[1,1,1],[1,1,1],[1,1,1],[1,1,1],[1,1,1],[1,1,1],[1,1,1]]}"#,
            OpenErr::LevelCount { count: 9 },
        ),
        (
            r#"{"downsamplingFactors":[[0,1,1],[1,1,1],[1,1,1]]}"#,
            third,
        ),
        (r#"{"downsamplingFactors":[[1,1,1],[2,0,1]]}"#, zero),
    ] {
        assert_eq!(rt; refusal(rt.alloc(), setup, LEVEL_0)?, Some(want), "{setup}");
    }
    Ok(())
}

#[test]
fn a_failed_get_is_the_last(rt: HostRuntime) -> Result<(), Fail> {
    let alloc = rt.alloc();
    let mut store = levels_in(alloc, SETUP, LEVEL_0, 2)?;
    let failed = open_pyramid(alloc, &mut store, "pyr").err();
    assert_eq!(rt; failed, Some(OpenErr::ReadFault));
    assert_eq!(rt; store.log().len(), 2);
    Ok(())
}

#[test]
fn attributes_have_at_most_2_to_the_20_bytes(rt: HostRuntime) -> Result<(), Fail> {
    let alloc = rt.alloc();
    let mut text = String::from_str(alloc, LEVEL_0)?;
    for _ in LEVEL_0.len()..1 << 20 {
        text.push(' ')?;
    }
    assert_eq!(rt; refusal(alloc, SETUP, text.as_str())?, None);
    text.push(' ')?;
    let spot = Spot::Level(0);
    let len = 1048577;
    let long = refusal(alloc, SETUP, text.as_str())?;
    assert_eq!(rt; long, Some(OpenErr::TooLong { spot, len }));
    Ok(())
}

#[test]
fn a_refusal_says_what_and_where(rt: HostRuntime) -> Result<(), Fail> {
    let alloc = rt.alloc();
    let member = Member::Compression;
    let err = MetaErr::Missing { member };
    let spot = Spot::Level(1);
    let text = format!(in alloc; "{}", OpenErr::Meta { spot, err })?;
    assert_eq!(rt;
        text.as_str(),
        "the attributes of level 1: the member compression is missing or has another type"
    );
    Ok(())
}
