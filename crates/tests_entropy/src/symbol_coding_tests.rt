//! The calls beside blocks that another program gave, with ample memory.

ghost use Rattle.std.specs.Prelude.{◌≡◌, ◌≤◌, ◌<◌, ◌%◌, length};

use crate::shown::{are_bytes, is_fault, is_number};
use drc_base::{Fault, Kind, MAX_VALUES, Refusal};
use drc_bits::Cursor;
use std::alloc::Global;
use std::process::Abort;
use symbol_coding::{CodedSymbols, Symbols, open_symbols, read_symbols, write_symbols};

/// Bytes, and one more behind them.
fn longer(rt: &impl Abort, alloc: Global, bytes: &[u8]) -> Vec<u8> {
    let mut longer = Vec::new(alloc);
    longer.extend_from_slice(bytes).expect(rt, "room");
    longer.push(0xff).expect(rt, "room");
    longer
}

/// Asserts that a block, and one more byte behind it, are read as the values and that byte.
fn is_read(rt: &impl Abort, alloc: Global, values: &[u32], comps: u32, bytes: &[u8])
    requires comps { 0 < comps }
    requires divides { length values.now % comps ≡ 0 }
    requires few { length values.now ≤ MAX_VALUES }
{
    let bytes = longer(rt, alloc, bytes);
    let mut c = Cursor::new(bytes.as_slice());
    let read = read_symbols(alloc, &mut c, values.len() as u32, comps).expect(rt, "values");
    assert!(rt; read.as_slice() == values);
    assert!(rt; c.rest().len() == 1);
}

/// Asserts that the values are written as these bytes, and these bytes with one more behind them are read as
/// the values.
fn both_ways(rt: &impl Abort, alloc: Global, values: &[u32], comps: u32, bytes: &[u8]) {
    assert!(rt; comps > 0);
    assert!(rt; values.len() % comps as usize == 0);
    assert!(rt; values.len() <= MAX_VALUES as usize);
    let block = write_symbols(alloc, values, comps).expect(rt, "room");
    are_bytes(rt, block.as_slice(), bytes);
    is_read(rt, alloc, values, comps, bytes);
}

/// Whether symbols that are taken one after another are these values.
fn are_values(symbols: CodedSymbols<'_>, values: &[u32]) -> bool {
    let mut symbols = symbols;
    for value in values {
        if symbols.len() == 0 || symbols.next() != *value {
            return false;
        }
    }
    symbols.len() == 0
}

/// Whether the symbols of a block, taken one after another, are these values, and the cursor stands behind
/// the block before any is taken.
fn are_taken(alloc: Global, block: &[u8], values: &[u32]) -> Result<bool, Refusal> {
    if values.len() > MAX_VALUES as usize {
        return Ok(false);
    }
    let mut c = Cursor::new(block);
    let opened = open_symbols(alloc, &mut c, values.len() as u32, 1)?;
    if c.rest().len() > 0 {
        return Ok(false);
    }
    match opened {
        Symbols::Coded(symbols) => Ok(are_values(symbols, values)),
        Symbols::Listed(_values) => Ok(false),
    }
}

/// The fault of a block of `n` values.
fn fault_of(alloc: Global, n: u32, bytes: &[u8]) -> Option<Fault> {
    if n > MAX_VALUES {
        return None;
    }
    match read_symbols(alloc, &mut Cursor::new(bytes), n, 1) {
        Err(Refusal::Fault(fault)) => Some(fault),
        _ => None,
    }
}

/// Values, how many of them each item has, and their block.
static BLOCKS: [(&[u32], u32, &[u8]); 12] = [
    (&[], 3, &[]),
    (&[0, 0, 0, 0, 0, 0, 0, 0, 0], 3, &[1, 1, 1, 1, 0x40, 1, 0]),
    (
        &[0, 1, 0, 0],
        1,
        &[1, 2, 2, 1, 0x30, 1, 0x10, 3, 0, 0x24, 0x82],
    ),
    (
        &[5, 0, 300],
        3,
        &[0, 0x0a, 0x23, 1, 0x40, 1, 0, 5, 0, 0xb0, 4],
    ),
    (&[7], 1, &[0, 4, 0x0b, 1, 0x40, 1, 0, 7]),
    (&[262143], 1, &[0, 0x13, 0x47, 1, 0x40, 1, 0, 0xff, 0xff, 3]),
    (&[262144], 1, &[0, 0x14, 0x4b, 1, 0x40, 1, 0, 0, 0, 4]),
    (
        &[4294967295, 0],
        2,
        &[
            0, 0x21, 0x7f, 1, 0x40, 1, 0, 0xff, 0xff, 0xff, 0xff, 0, 0, 0, 0,
        ],
    ),
    (
        &[1, 2, 3, 4, 5, 6, 7, 8, 9, 10, 11, 12, 13, 14, 15, 16],
        8,
        &[
            0, 6, 0x0f, 1, 0x20, 1, 0x20, 3, 0, 0xd0, 0x80, 0x21, 0x43, 0x65, 0x87, 0x49, 0x2d,
            0xd6, 0xdc, 0x83,
        ],
    ),
    (
        &[0, 0, 1, 3, 0, 0, 3],
        1,
        &[
            1, 2, 4, 0x95, 0x24, 0x25, 9, 3, 0x49, 0x12, 4, 0x81, 0x8e, 0xa0, 0x80,
        ],
    ),
    // Both schemes cost the same.
    (
        &[0, 0, 1, 1],
        1,
        &[1, 2, 2, 1, 0x20, 1, 0x20, 3, 0, 0x20, 0x84],
    ),
    (
        &[0, 0, 0, 0, 0, 0, 0, 0, 0, 0, 0, 0, 0, 0, 0, 0, 70, 70],
        1,
        &[
            0, 8, 3, 0xe5, 0x38, 0x13, 0x1d, 7, 4, 0xef, 0x4c, 0x41, 0x80, 0, 0, 0x46, 0x23,
        ],
    ),
];

#[test]
fn blocks_both_ways(rt: HostRuntime) {
    for (values, comps, bytes) in BLOCKS.iter() {
        both_ways(&rt, rt.alloc(), values, *comps, bytes);
    }
}

/// Asserts that a block of so many values has this fault.
fn has_fault(rt: &impl Abort, alloc: Global, n: u32, bytes: &[u8], kind: Kind, at: u64) {
    is_fault(rt, bytes, fault_of(alloc, n, bytes), kind, at);
}

/// Blocks of two values, and their faults.
static FAULTS: [(&[u8], Kind, u64); 17] = [
    (&[], Kind::Short, 0),
    (&[2], Kind::Scheme, 0),
    (&[1], Kind::Short, 1),
    (&[1, 0], Kind::Length, 1),
    (&[1, 19], Kind::Length, 1),
    (&[1, 1, 1, 0], Kind::Sum, 2),
    (&[1, 1, 1, 1, 0x40], Kind::Short, 5),
    (&[1, 1, 1, 1, 0x40, 1], Kind::Short, 6),
    (&[1, 1, 1, 1, 0x40, 0], Kind::BadStart, 6),
    (&[1, 1, 1, 1, 0x40, 1, 0x40], Kind::BadStart, 6),
    (&[0], Kind::Short, 1),
    (&[0, 0], Kind::EmptyTable, 1),
    (&[0, 0x81, 0x80, 0x40], Kind::TableLimit, 1),
    (&[0, 1, 7], Kind::Run, 2),
    // Groups of 33 bits, and of 32 whose last byte is missing.
    (&[0, 0x22, 0x83, 1, 0x40, 1, 0], Kind::Length, 6),
    (&[0, 0x21, 0x7f, 1, 0x40, 1, 0, 1, 2, 3], Kind::Short, 7),
    // A group of 9 bits, which aren't there, before one of 33.
    (
        &[0, 0x22, 0x23, 1, 0x20, 0x5b, 1, 0x20, 3, 0, 0xd0, 0x80],
        Kind::Short,
        12,
    ),
];

#[test]
fn faults_of_blocks(rt: HostRuntime) {
    for (bytes, kind, at) in FAULTS.iter() {
        has_fault(&rt, rt.alloc(), 2, bytes, *kind, *at);
    }
}

/// A block whose group of 33 bits comes first.
static LONG_GROUP_FIRST: [u8; 12] = [0, 0x22, 0x23, 1, 0x20, 0x5b, 1, 0x20, 3, 0, 0xc8, 0x80];

/// A block of values of one bit that has no bits.
static NO_BITS: [u8; 7] = [0, 2, 3, 1, 0x40, 1, 0];

#[test]
fn faults_of_a_first_long_group_and_of_no_bits(rt: HostRuntime) {
    has_fault(&rt, rt.alloc(), 2, &LONG_GROUP_FIRST, Kind::Length, 9);
    // As many values as a block may have.
    has_fault(&rt, rt.alloc(), MAX_VALUES, &NO_BITS, Kind::Short, 7);
}

/// As many symbols as need the precision of 20 bits.
fn many(rt: &impl Abort, alloc: Global) -> Vec<u32> {
    let mut values = Vec::new(alloc);
    for k in 0..24576u32 {
        values.push(k % 8192).expect(rt, "room");
    }
    values
}

/// The block of those symbols.
fn block_of(rt: &impl Abort, alloc: Global, values: &[u32]) -> Vec<u8> {
    assert!(rt; values.len() == 24576);
    write_symbols(alloc, values, 1).expect(rt, "room")
}

#[test]
fn many_symbols_are_written(rt: HostRuntime) {
    let values = many(&rt, rt.alloc());
    let block = block_of(&rt, rt.alloc(), values.as_slice());
    is_number(&rt, block.len() as u64, 56328);
    are_bytes(
        &rt,
        block.get(..4).expect(&rt, "a prefix"),
        &[1, 14, 128, 64],
    );
}

#[test]
fn many_symbols_are_read(rt: HostRuntime) {
    let values = many(&rt, rt.alloc());
    let block = block_of(&rt, rt.alloc(), values.as_slice());
    let mut c = Cursor::new(block.as_slice());
    let read = read_symbols(rt.alloc(), &mut c, 24576, 1).expect(&rt, "values");
    assert!(rt; read.as_slice() == values.as_slice());
}

#[test]
fn many_symbols_are_taken(rt: HostRuntime) {
    let values = many(&rt, rt.alloc());
    let block = block_of(&rt, rt.alloc(), values.as_slice());
    let taken = are_taken(rt.alloc(), block.as_slice(), values.as_slice());
    assert!(rt; taken.expect(&rt, "symbols"));
}
