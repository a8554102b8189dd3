// Vectors of the N5 README, and the refusals of its prefixes.

use n5_block::{BlockErr, read_block, write_block};
use std::process::Abort;

// The example of the N5 README: 1 x 2 x 3 elements of two bytes, 1 to 6.
const README: [u8; 28] = [
    0, 0, 0, 3, 0, 0, 0, 1, 0, 0, 0, 2, 0, 0, 0, 3, 0, 1, 0, 2, 0, 3, 0, 4, 0, 5, 0, 6,
];

const SIDES: [u32; 3] = [1, 2, 3];

/// Bytes are no block of these sides for this reason, and the values stay as they were.
fn expect_refusal(rt: &impl Abort, bytes: &[u8], want: BlockErr) {
    let mut values = [9u64; 6];
    let found = read_block(bytes, 2, SIDES, SIDES, &mut values);
    assert_eq!(rt; found, Err(want));
    assert_eq!(rt; values, [9; 6]);
}

#[test]
fn the_example_of_the_format_is_read_and_written(rt: HostRuntime) {
    let mut values = [9u64; 7];
    assert_eq!(rt; read_block(&README, 2, SIDES, SIDES, &mut values), Ok(()));
    assert_eq!(rt; values, [1, 2, 3, 4, 5, 6, 9]);

    let mut bytes = [7u8; 29];
    let len = write_block(2, SIDES, &[1, 2, 3, 4, 5, 6], &mut bytes);
    assert_eq!(rt; len, 28);
    assert_eq!(rt; &bytes[..28], README.as_slice());
    assert_eq!(rt; bytes[28], 7);
}

#[test]
fn a_prefix_is_short_and_a_longer_list_trails(rt: HostRuntime) {
    for len in 0..28usize {
        let need = if len < 16 { 16 } else { 28 };
        let short = BlockErr::Short {
            len: len as u64,
            need,
        };
        expect_refusal(&rt, &README[..len], short);
    }
    let mut longer = [0u8; 29];
    longer[..28].copy_from_slice(&README);
    let trailing = BlockErr::Trailing { len: 29, need: 28 };
    expect_refusal(&rt, &longer, trailing);
}

#[test]
fn each_rule_of_the_head_has_its_refusal(rt: HostRuntime) {
    let mut mode = README;
    mode[1] = 1;
    let mut axes = README;
    axes[3] = 4;
    let mut side = README;
    side[11] = 5;
    side[15] = 0;
    for (bytes, want) in [
        (mode, BlockErr::Mode { found: 1 }),
        (axes, BlockErr::Axes { found: 4 }),
        (side, BlockErr::Side { axis: 1, found: 5 }),
    ] {
        expect_refusal(&rt, &bytes, want);
    }
}

#[test]
fn a_full_block_serves_a_cropped_cell(rt: HostRuntime) {
    let mut block = [0u8; 64];
    let elements = [10, 11, 12, 13, 14, 15, 16, 17, 18, 19, 20, 21];
    let len = write_block(4, [3, 2, 2], &elements, &mut block);
    assert_eq!(rt; len, 64);

    let mut values = [0u64; 4];
    assert_eq!(rt;
        read_block(&block, 4, [2, 1, 2], [3, 2, 2], &mut values),
        Ok(())
    );
    assert_eq!(rt; values, [10, 11, 16, 17]);
}

#[test]
fn every_width_comes_back(rt: HostRuntime) {
    for (width, value) in [
        (1, 0xfe),
        (2, 0xfedc),
        (4, 0xfedc_ba98),
        (8, 0xfedc_ba98_7654_3210),
    ] {
        let mut block = [0u8; 32];
        let len = write_block(width, [1, 1, 2], &[value, 1], &mut block);
        let mut values = [0u64; 2];
        assert_eq!(rt;
            read_block(&block[..len], width, [1, 1, 2], [1, 1, 2], &mut values),
            Ok(())
        );
        assert_eq!(rt; values, [value, 1]);
    }
}
