//! The calls beside tables that were worked out by hand, with ample memory.

ghost use Rattle.std.specs.Prelude.{◌≡◌, ◌≤◌, ◌+◌, ◌*◌, ◌^◌, length, sum};
ghost use Rattle.symbol_tables.specs.Normal.{HasTable};

use crate::shown::{are_bytes, is_fault, is_number};
use drc_base::{Fault, Kind, Refusal};
use drc_bits::Cursor;
use std::alloc::Global;
use std::process::Abort;
use symbol_tables::Table;

/// The kind and place of the fault of a table with 4096 slots, if any.
fn fault_of(alloc: Global, bytes: &[u8]) -> Option<Fault> {
    match Table::read(alloc, &mut Cursor::new(bytes), 12) {
        Err(Refusal::Fault(fault)) => Some(fault),
        _ => None,
    }
}

/// The table with 4096 slots with which bytes begin.
fn table_of(rt: &impl Abort, alloc: Global, bytes: &[u8]) -> Table
    ensures { sum result ≡ 2 ^ 12 }
{
    Table::read(alloc, &mut Cursor::new(bytes), 12).expect(rt, "a table")
}

#[test]
fn one_symbol_has_all_slots(rt: HostRuntime) {
    let table = table_of(&rt, rt.alloc(), &[0x01, 0x01, 0x40]);
    is_number(&rt, table.len() as u64, 1);
    is_number(&rt, table.prob(0) as u64, 4096);
    for slot in 0..4096u32 {
        assert!(rt; table.find(slot) == 0);
    }
}

/// The bytes of a table of 70001 symbols, of which the last has all slots.
fn long_bytes(rt: &impl Abort, alloc: Global) -> Vec<u8> {
    let mut bytes = Vec::new(alloc);
    bytes
        .extend_from_slice(&[0xf1, 0xa2, 0x04])
        .expect(rt, "room");
    bytes.resize(3 + 1093, 0xff).expect(rt, "room");
    bytes
        .extend_from_slice(&[0xbf, 0x01, 0x40])
        .expect(rt, "room");
    bytes
}

/// A table of more symbols than have 16 bits.
#[test]
fn a_symbol_above_16_bits_has_slots(rt: HostRuntime) {
    let bytes = long_bytes(&rt, rt.alloc());
    let table = table_of(&rt, rt.alloc(), bytes.as_slice());
    is_number(&rt, table.len() as u64, 70001);
    is_number(&rt, table.find(0) as u64, 70000);
    is_number(&rt, table.find(4095) as u64, 70000);
}

/// Bytes with which no table begins, and their faults.
static BAD_TABLES: [(&[u8], Kind, u64); 11] = [
    (&[0x01, 0x07], Kind::Run, 1),
    (&[0x01, 0x00], Kind::Sum, 0),
    (&[0x00], Kind::EmptyTable, 0),
    (&[0x81, 0x80, 0x40], Kind::TableLimit, 0),
    (&[], Kind::Short, 0),
    (&[0xff, 0xff, 0xff, 0xff, 0x1f], Kind::Long, 0),
    (&[0x02, 0x01, 0x40], Kind::Short, 3),
    (&[0x02, 0x02, 0x40], Kind::Short, 3),
    (&[0x01, 0x01], Kind::Short, 2),
    (&[0x02, 0x01, 0x40, 0x07], Kind::Run, 3),
    (&[0x02, 0x01, 0x40, 0x04], Kind::Sum, 0),
];

#[test]
fn bad_tables_are_refused(rt: HostRuntime) {
    for (bytes, kind, at) in BAD_TABLES.iter() {
        is_fault(&rt, bytes, fault_of(rt.alloc(), bytes), *kind, *at);
    }
}

/// Asserts that the table of these bytes gives each slot to the same symbol.
fn is_read(rt: &impl Abort, alloc: Global, table: &Table, bits: u32, slots: u32, bytes: &[u8])
    requires low { 12 ≤ bits }
    requires high { bits ≤ 20 }
    requires slots { slots ≡ 2 ^ bits }
    requires whole { sum table.now ≡ 2 ^ bits }
{
    let again = Table::read(alloc, &mut Cursor::new(bytes), bits).expect(rt, "a table");
    assert!(rt; again.len() == table.len());
    for slot in 0..slots {
        assert!(rt; again.find(slot) == table.find(slot));
    }
}

/// Writes the table of the counts and compares its bytes, and reads it again.
fn round(rt: &impl Abort, alloc: Global, counts: &[u32], bits: u32, slots: u32, wanted: &[u8])
    requires low { 12 ≤ bits }
    requires high { bits ≤ 20 }
    requires slots { slots ≡ 2 ^ bits }
    requires counts { HasTable counts.now bits }
{
    let table = Table::of_counts(alloc, counts, bits).expect(rt, "room");
    let mut bytes = Vec::new(alloc);
    table.write(alloc, &mut bytes).expect(rt, "room");
    are_bytes(rt, bytes.as_slice(), wanted);
    is_read(rt, alloc, &table, bits, slots, bytes.as_slice());
}

/// The table of four counts.
static FOUR: [u8; 8] = [0x04, 0x59, 0x15, 0x03, 0x55, 0x15, 0x55, 0x15];

/// Probabilities of one, two and three bytes.
#[test]
fn counts_have_tables(rt: HostRuntime) {
    let alloc = rt.alloc();
    let two = [0x02, 0x01, 0x30, 0x01, 0x10];
    round(&rt, alloc, &[3, 1], 12, 4096, &two);
    round(&rt, alloc, &[1, 0, 1, 1], 12, 4096, &FOUR);
    let large = [0x02, 0x08, 0xfa, 0xff, 0x3f];
    round(&rt, alloc, &[1, 1_000_000], 20, 0x10_0000, &large);
}

/// Asserts that the table of these bytes is written so.
fn is_written(rt: &impl Abort, alloc: Global, bytes: &[u8]) {
    let table = table_of(rt, alloc, bytes);
    let mut out = Vec::new(alloc);
    table.write(alloc, &mut out).expect(rt, "room");
    are_bytes(rt, out.as_slice(), bytes);
}

/// Tables with runs of 64, of 65 and of 129 zeros.
static RUNS: [&[u8]; 3] = [
    &[0x42, 0x01, 0x20, 0xff, 0x01, 0x20],
    &[0x43, 0x01, 0x20, 0xff, 0x03, 0x01, 0x20],
    &[0x82, 0x01, 0xff, 0xff, 0x03, 0x01, 0x40],
];

#[test]
fn long_runs_are_read_and_written(rt: HostRuntime) {
    for bytes in RUNS.iter() {
        is_written(&rt, rt.alloc(), bytes);
    }
}

/// The bytes of a table of 2 to the power 20 symbols.
fn all_symbols(rt: &impl Abort, alloc: Global) -> Vec<u8> {
    let mut all = Vec::from_slice(alloc, &[0x80, 0x80, 0x40, 0x01, 0x40]).expect(rt, "room");
    for _ in 0..16383u32 {
        all.push(0xff).expect(rt, "room");
    }
    all.push(0xfb).expect(rt, "room");
    all
}

#[test]
fn a_table_of_all_symbols_is_read_and_written(rt: HostRuntime) {
    let all = all_symbols(&rt, rt.alloc());
    is_written(&rt, rt.alloc(), all.as_slice());
}
