// Worked examples of attributes.

use cell_grid::Kind;
use n5_meta::{Attr, Member, MetaErr, read_attributes};
use std::alloc::{AllocError, Global};
use std::test::Fail;

/// Attributes with a member more.
fn attributes(
    alloc: Global,
    dimensions: &str,
    block_size: &str,
    ignored: &str,
) -> Result<String, AllocError> {
    format!(in alloc;
        "{{\"dimensions\":{dimensions},\"blockSize\":{block_size},\"dataType\":\"uint64\",\"compression\":{{\"type\":\"raw\"}},\"ignored\":{ignored}}}"
    )
}

/// Why such attributes are refused.
fn refusal(
    alloc: Global,
    dimensions: &str,
    block_size: &str,
    ignored: &str,
) -> Result<Option<MetaErr>, AllocError> {
    let text = attributes(alloc, dimensions, block_size, ignored)?;
    Ok(read_attributes(alloc, text.as_bytes()).err())
}

/// Arrays in one another.
fn nested(alloc: Global, depth: u32) -> Result<String, AllocError> {
    let mut text = String::from_str(alloc, "0")?;
    for _ in 0..depth {
        text = format!(in alloc; "[{text}]")?;
    }
    Ok(text)
}

#[test]
fn the_last_of_two_members_of_a_name_counts(rt: HostRuntime) -> Result<(), Fail> {
    let alloc = rt.alloc();
    let twice = "[7],\"dimensions\":[18446744073709551615,2,3]";
    let text = attributes(alloc, twice, "[4294967295,0,1]", "0")?;
    let attr = read_attributes(alloc, text.as_bytes())?;
    let dims = [18446744073709551615, 2, 3];
    let cell = [4294967295, 0, 1];
    let kind = Kind::U64;
    assert_eq!(rt; attr, Attr { dims, cell, kind });
    Ok(())
}

#[test]
fn a_number_that_is_not_whole_is_refused(rt: HostRuntime) -> Result<(), Fail> {
    for (dimensions, block_size, member) in [
        ("[-0,1,1]", "[1.0,1,1]", Member::Dimensions),
        ("[-1,1,1]", "[1.0,1,1]", Member::Dimensions),
        ("[2.0,1,1]", "[1.0,1,1]", Member::Dimensions),
        ("[2e0,1,1]", "[1.0,1,1]", Member::Dimensions),
        (
            "[18446744073709551616,1,1]",
            "[1.0,1,1]",
            Member::Dimensions,
        ),
        ("[1,1]", "[4294967296,1,1]", Member::BlockSize),
    ] {
        let found = refusal(rt.alloc(), dimensions, block_size, "0")?;
        assert_eq!(rt; found, Some(MetaErr::BadNumber { member }), "{dimensions}");
    }
    Ok(())
}

#[test]
fn an_ignored_member_is_read_as_json_too(rt: HostRuntime) -> Result<(), Fail> {
    let alloc = rt.alloc();
    let most = nested(alloc, 126)?;
    let more = nested(alloc, 127)?;
    let not_json = Some(MetaErr::NotJson);
    for (ignored, want) in [
        ("1e308", None),
        ("1e999", not_json),
        ("\"\\ud834\\udd1e\"", None),
        ("\"\\ud834\"", not_json),
        ("01", not_json),
        ("[1,]", not_json),
        (most.as_str(), None),
        (more.as_str(), not_json),
    ] {
        let found = refusal(alloc, "[1,1,1]", "[1,1,1]", ignored)?;
        assert_eq!(rt; found, want, "{ignored}");
    }
    Ok(())
}
