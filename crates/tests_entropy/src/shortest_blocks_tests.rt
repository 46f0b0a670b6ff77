//! The shortest blocks of values, worked out by hand and by another program.

ghost use Rattle.std.specs.Prelude.{◌≡◌, ◌≤◌, ◌<◌, ◌%◌, length};

use crate::shown::{are_bytes, is_number};
use drc_base::MAX_VALUES;
use drc_bits::Cursor;
use shortest_blocks::write_shortest;
use std::alloc::Global;
use std::process::Abort;
use symbol_coding::{read_symbols, write_symbols};

/// The shortest block of values that have one.
fn shortest(rt: &impl Abort, alloc: Global, values: &[u32], comps: u32) -> Vec<u8> {
    assert!(rt; comps > 0);
    assert!(rt; values.len() % comps as usize == 0);
    assert!(rt; values.len() <= MAX_VALUES as usize);
    write_shortest(alloc, values, comps).expect(rt, "room")
}

/// How many bytes `write_symbols` writes.
fn plain_length(rt: &impl Abort, alloc: Global, values: &[u32], comps: u32) -> u64 {
    assert!(rt; comps > 0);
    assert!(rt; values.len() % comps as usize == 0);
    assert!(rt; values.len() <= MAX_VALUES as usize);
    write_symbols(alloc, values, comps).expect(rt, "room").len() as u64
}

/// Asserts that a block is read as the values.
fn is_read(rt: &impl Abort, alloc: Global, values: &[u32], comps: u32, block: &[u8]) {
    assert!(rt; comps > 0);
    assert!(rt; values.len() % comps as usize == 0);
    assert!(rt; values.len() <= MAX_VALUES as usize);
    let mut c = Cursor::new(block);
    let read = read_symbols(alloc, &mut c, values.len() as u32, comps).expect(rt, "values");
    assert!(rt; read.as_slice() == values);
    assert!(rt; c.rest().len() == 0);
}

/// Values, how many of them each group has, their shortest block, and the length of the block of `write_symbols`.
static BLOCKS: [(&[u32], u32, &[u8], u64); 6] = [
    (&[], 3, &[], 0),
    // Bit lengths 0 and 4: the group of 1 takes 4 bits.
    (
        &[0, 0, 0, 0, 0, 0, 9, 1],
        1,
        &[0, 5, 1, 0x30, 0x0b, 1, 0x10, 3, 0, 0x74, 0x97, 0x19],
        14,
    ),
    // Nothing is joined, and groups of zeros have no bits.
    (
        &[
            0, 0, 0, 0, 0, 0, 40, 0, 3, 0, 0, 0, 0, 0, 0, 1, 2, 0, 0, 0, 0,
        ],
        3,
        &[
            0, 7, 0xb9, 0x2d, 0x13, 0x49, 0x12, 3, 0xbc, 0x38, 0x90, 0x28, 0x30, 4, 2, 0,
        ],
        19,
    ),
    // Bit lengths 1, 2, 4 and 5 become 7.
    (
        &[2, 0, 9, 119, 0, 0, 21, 0, 1],
        1,
        &[
            0, 8, 0x71, 0x1c, 0x17, 0x91, 0x23, 3, 0xa8, 0xe9, 0x7b, 0x82, 0xc4, 0xbd, 0x12, 0,
        ],
        23,
    ),
    // Bit lengths 2 and 4 become 5, and 6 stays.
    (
        &[
            1, 15, 1, 1, 0, 2, 9, 1, 0, 5, 8, 1, 1, 0, 18, 0, 10, 2, 0, 1, 25, 1, 43, 1,
        ],
        3,
        &[
            0, 7, 0x13, 1, 0x38, 1, 8, 3, 0, 0xec, 0x84, 0xe1, 0x85, 0, 0x44, 0x0a, 0xa0, 0xa0,
            0x10, 0x80, 4, 0x4a, 0x80, 0x90, 0x83, 0x35, 0,
        ],
        30,
    ),
    // Symbols of the bit length 2 and of 4 are equally short.
    (
        &[0, 0, 0, 0, 0, 0, 0, 9, 0],
        3,
        &[1, 2, 0x0a, 0xe5, 0x38, 0x1f, 0x1d, 7, 3, 0xb4, 0x88, 0x85],
        15,
    ),
];

#[test]
fn blocks_are_the_shortest(rt: HostRuntime) {
    for (values, comps, bytes, plain) in BLOCKS.iter() {
        let block = shortest(&rt, rt.alloc(), values, *comps);
        are_bytes(&rt, block.as_slice(), bytes);
        is_number(&rt, plain_length(&rt, rt.alloc(), values, *comps), *plain);
        is_read(&rt, rt.alloc(), values, *comps, block.as_slice());
    }
}

/// Zeros at every second place, and numbers below 90, all equally often, at the others.
fn many(rt: &impl Abort, alloc: Global) -> Vec<u32> {
    let mut values = Vec::new(alloc);
    for k in 0..4000u32 {
        let value = if k % 2 == 0 { 0 } else { k / 2 % 90 };
        values.push(value).expect(rt, "room");
    }
    values
}

#[test]
fn two_bits_more_are_shorter(rt: HostRuntime) {
    let values = many(&rt, rt.alloc());
    let block = shortest(&rt, rt.alloc(), values.as_slice(), 1);
    is_number(&rt, block.len() as u64, 2199);
    is_number(
        &rt,
        plain_length(&rt, rt.alloc(), values.as_slice(), 1),
        2200,
    );
    are_bytes(
        &rt,
        block.get(..4).expect(&rt, "a prefix"),
        &[1, 9, 90, 213],
    );
    is_read(&rt, rt.alloc(), values.as_slice(), 1, block.as_slice());
}
