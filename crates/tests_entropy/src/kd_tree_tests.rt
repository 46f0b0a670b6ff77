//! The trees of worked keys, with ample memory, and back. Their bits are worked out by hand.

ghost use Rattle.std.specs.Prelude.{◌≡◌, ◌≤◌, ◌<◌, length};
ghost use Rattle.kd_tree.specs.Trees.{IsSettled};

use drc_base::{Fault, Kind, Refusal};
use drc_bits::Cursor;
use kd_tree::{Keys, SortedKeys, read_tree, sort_keys, write_tree};
use rans_binary::{BitBlock, write_block};
use std::alloc::Global;
use std::process::Abort;

/// The bits of a text of digits 0 and 1.
fn bits_of(rt: &impl Abort, alloc: Global, text: &str) -> Vec<bool> {
    let mut bits = Vec::new(alloc);
    for digit in text.as_bytes() {
        bits.push(*digit == b'1').expect(rt, "room");
    }
    bits
}

/// Asserts that bits are those of a text of digits 0 and 1.
fn are_bits(rt: &impl Abort, alloc: Global, bits: &[bool], text: &str) {
    assert_eq!(rt; bits, bits_of(rt, alloc, text).as_slice());
}

/// Appends a key.
fn push_key(rt: &impl Abort, table: &mut Keys, key: &[bool]) {
    assert!(rt; key.len() == table.depth() as usize);
    table.push(key).expect(rt, "room");
}

/// The keys of texts of digits 0 and 1.
fn table_of(rt: &impl Abort, alloc: Global, depth: u32, keys: &[&str]) -> Keys {
    let mut table = Keys::new(alloc, depth);
    for key in keys {
        push_key(rt, &mut table, bits_of(rt, alloc, key).as_slice());
    }
    table
}

/// The block of bits, and other bytes behind it.
fn block_of(rt: &impl Abort, alloc: Global, bits: &[bool]) -> Vec<u8> {
    assert!(rt; bits.len() < 1000);
    let mut bytes = write_block(alloc, bits).expect(rt, "room");
    bytes.extend_from_slice(&[7, 200, 255]).expect(rt, "room");
    bytes
}

/// The block with which bytes begin, to be read.
fn opened<'a>(rt: &impl Abort, bytes: &'a [u8]) -> BitBlock<'a> {
    BitBlock::read(&mut Cursor::new(bytes)).expect(rt, "a block")
}

/// What is read of the blocks of a tree.
fn answer_of(
    rt: &impl Abort,
    alloc: Global,
    bits: (&[bool], &[bool]),
    count: u32,
    depth: u32,
) -> Result<Keys, Refusal> {
    let split = block_of(rt, alloc, bits.0);
    let rest = block_of(rt, alloc, bits.1);
    let mut split = opened(rt, split.as_slice());
    let mut rest = opened(rt, rest.as_slice());
    let fault = Fault::new(Kind::KdSplit, 28);
    read_tree(alloc, &mut split, &mut rest, count, depth, fault)
}

/// Compares two keys of tables bit by bit.
fn same_key(rt: &impl Abort, keys: &Keys, k: usize, others: &Keys, n: usize) {
    assert!(rt; k < keys.len());
    assert!(rt; n < others.len());
    assert!(rt; keys.depth() == others.depth());
    for d in 0..keys.depth() {
        assert!(rt; keys.bit(k, d) == others.bit(n, d));
    }
}

/// Compares two tables bit by bit.
fn same_keys(rt: &impl Abort, keys: &Keys, others: &Keys) {
    assert!(rt; keys.len() == others.len());
    assert!(rt; keys.depth() == others.depth());
    for k in 0..keys.len() {
        same_key(rt, keys, k, others, k);
    }
}

/// Keys that are sorted.
fn sorted(rt: &impl Abort, alloc: Global, table: Keys) -> SortedKeys
    ensures { IsSettled result.keys.depth 0 result.keys.rows }
{
    assert!(rt; table.len() < 100);
    sort_keys(alloc, table).expect(rt, "room")
}

/// Writes the tree of sorted keys, compares its bits, and reads the keys again.
fn is_written(rt: &impl Abort, alloc: Global, keys: &Keys, split: &str, rest: &str)
    requires { IsSettled keys.now.depth 0 keys.now.rows }
{
    assert!(rt; keys.len() < 100);
    let bits = write_tree(alloc, keys).expect(rt, "room");
    are_bits(rt, alloc, bits.split.as_slice(), split);
    are_bits(rt, alloc, bits.rest.as_slice(), rest);
    let blocks = (bits.split.as_slice(), bits.rest.as_slice());
    let again = answer_of(rt, alloc, blocks, keys.len() as u32, keys.depth());
    same_keys(rt, &again.expect(rt, "keys"), keys);
}

/// Keys of so many bits, their order, and the bits of their tree.
#[derive(Drop)]
struct Worked<'a> {
    depth: u32,
    keys: &'a [&'a str],
    order: &'a [u32],
    split: &'a str,
    rest: &'a str,
}

/// Sorts keys, writes their tree, compares its bits, and reads the keys again.
fn round(rt: &impl Abort, alloc: Global, worked: &Worked<'_>) {
    let table = table_of(rt, alloc, worked.depth, worked.keys);
    let found = sorted(rt, alloc, table);
    assert_eq!(rt; found.order.as_slice(), worked.order);
    assert!(rt; found.keys.depth() == worked.depth);
    is_written(rt, alloc, &found.keys, worked.split, worked.rest);
}

/// Keys that were worked by hand.
static WORKED: [Worked<'static>; 5] = [
    Worked {
        depth: 1,
        keys: &["0", "0", "1"],
        order: &[0, 1, 2],
        split: "10",
        rest: "",
    },
    Worked {
        depth: 0,
        keys: &["", ""],
        order: &[0, 1],
        split: "",
        rest: "",
    },
    Worked {
        depth: 5,
        keys: &["10110"],
        order: &[0],
        split: "",
        rest: "10110",
    },
    Worked {
        depth: 4,
        keys: &["1100", "0110"],
        order: &[1, 0],
        split: "01",
        rest: "110100",
    },
    Worked {
        depth: 3,
        keys: &["101", "001", "100", "001"],
        order: &[1, 3, 2, 0],
        split: "01010001001",
        rest: "",
    },
];

#[test]
fn trees_of_worked_keys(rt: HostRuntime) {
    for worked in WORKED.iter() {
        round(&rt, rt.alloc(), worked);
    }
}

/// Two keys of 66 bits, of which the first 64 are ones.
static TWO_WORDS: Worked<'static> = Worked {
    depth: 66,
    keys: &[
        "111111111111111111111111111111111111111111111111111111111111111101",
        "111111111111111111111111111111111111111111111111111111111111111100",
    ],
    order: &[1, 0],
    split: "000000000000000000000000000000000000000000000000000000000000000000000000000000000000000000000000000000000000000000000000000000001001",
    rest: "",
};

#[test]
fn trees_of_keys_of_two_words(rt: HostRuntime) {
    round(&rt, rt.alloc(), &TWO_WORDS);
}

/// The number that a linear congruential generator draws after this one.
fn after(x: u64) -> u64 {
    x.wrapping_mul(6364136223846793005)
        .wrapping_add(1442695040888963407)
}

/// The key of so many bits that is drawn after a number.
fn drawn(rt: &impl Abort, alloc: Global, depth: u32, x: u64) -> Vec<bool> {
    let mut key = Vec::new(alloc);
    let mut y = x;
    for _ in 0..depth {
        y = after(y);
        key.push(y >> 62 == 0).expect(rt, "room");
    }
    key
}

/// Keys of a linear congruential generator, each of which is there twice.
fn many_keys(rt: &impl Abort, alloc: Global, depth: u32) -> Keys {
    let mut table = Keys::new(alloc, depth);
    let mut x = 1u64;
    for k in 0..60u32 {
        x = if k == 30 { 1 } else { after(x) };
        push_key(rt, &mut table, drawn(rt, alloc, depth, x).as_slice());
    }
    table
}

/// Whether a key stands before another one: at the first bit in which they differ it has 0, or they are equal and its
/// number is less.
fn stands_before(table: &Keys, one: u32, other: u32) -> bool
    requires one { one < length table.now.rows }
    requires other { other < length table.now.rows }
{
    for d in 0..table.depth() {
        if table.bit(one as usize, d) != table.bit(other as usize, d) {
            return table.bit(other as usize, d);
        }
    }
    one < other
}

/// Asserts that one key stands before another one.
fn is_before(rt: &impl Abort, table: &Keys, one: u32, other: u32) {
    assert!(rt; (one as usize) < table.len());
    assert!(rt; (other as usize) < table.len());
    assert!(rt; stands_before(table, one, other));
}

/// Asserts that keys are those of a table, each before the next one, in this order.
fn are_sorted(rt: &impl Abort, table: &Keys, keys: &Keys, order: &[u32]) {
    assert!(rt; order.len() == 60);
    for k in 0..60usize {
        same_key(rt, keys, k, table, order[k] as usize);
        if k > 0 {
            is_before(rt, table, order[k - 1], order[k]);
        }
    }
}

/// Asserts that many keys of so many bits are sorted.
fn has_order(rt: &impl Abort, alloc: Global, depth: u32) {
    let table = many_keys(rt, alloc, depth);
    assert!(rt; table.len() == 60);
    assert!(rt; table.depth() == depth);
    let found = sorted(rt, alloc, many_keys(rt, alloc, depth));
    assert!(rt; found.keys.len() == 60);
    are_sorted(rt, &table, &found.keys, found.order.as_slice());
}

#[test]
fn many_keys_are_sorted(rt: HostRuntime) {
    for depth in [0u32, 1, 5, 63, 64, 130] {
        has_order(&rt, rt.alloc(), depth);
    }
}

#[test]
fn more_keys_than_there_are_refused(rt: HostRuntime) {
    let answer = answer_of(&rt, rt.alloc(), (&[true, true], &[]), 2, 1);
    assert_eq!(rt;
        answer.err(),
        Some(Refusal::Fault(Fault::new(Kind::KdSplit, 28)))
    );
}
