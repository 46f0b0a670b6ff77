//! Keys in order: by key, then by number.

ghost use Rattle.std.specs.Prelude.{◌≡◌, ℕ, ◌*◌, ◌<◌, ◌^◌, List, [], length, map, All, IfOk};
ghost use Rattle.std.specs.List.{range_with_len};
ghost use Rattle.kd_tree.specs.Keys.{Key, KeyRows, key_at};
ghost use Rattle.kd_tree.specs.Packing.{AreClean, IsWordOf, keys_in, packed_row, row_cmp, words_for};
ghost use Rattle.kd_tree.specs.Order.{IsKdOrder, IsOrderBy};
ghost use Rattle.kd_tree.specs.Trees.{IsSettled, high_bits, rest_bits, split_bits};

use crate::keys::{Keys, row_of, words_of};
use drc_base::{Memory, Sequence};
use std::alloc::Global;

/// Keys by key, then by number, and the numbers that they had.
#[derive(Drop)]
pub struct SortedKeys {
    /// The keys in order.
    pub keys: Keys,
    /// The number of each of them.
    pub order: Sequence<u32>,
}

/// Each key of fewer than 64 bits, as a number of so many bits, beside its own number.
fn word_pairs(alloc: Global, keys: &Keys) -> Result<Vec<(u64, u32)>, Memory>
    requires few { keys.now.depth < 64 }
    requires count { length keys.now.rows < 2 ^ 32 }
    ensures numbers { IfOk result (λ v. map (λ (p : ℕ × ℕ). p.1) v.items ≡ range_with_len 0 (length keys.now.rows)) }
    ensures words { IfOk result (λ v. All (λ (p : ℕ × ℕ). IsWordOf keys.now p.1 p.0) v.items) }
{
    let mut pairs = Vec::with_capacity(alloc, keys.len())?;
    for k in 0..keys.len() {
        pairs.push((keys.number(k), k as u32))?;
    }
    Ok(pairs)
}

/// The numbers of pairs.
fn word_numbers(alloc: Global, pairs: &[(u64, u32)]) -> Result<Vec<u32>, Memory>
    ensures { IfOk result (λ v. v.items ≡ map (λ (p : ℕ × ℕ). p.1) pairs.now) }
{
    let numbers = pairs.iter().map(|pair| pair.1).collect(alloc)?;
    Ok(numbers)
}

/// The keys of pairs, in the room of keys that holds none yet.
fn word_keys(room: Keys, pairs: &[(u64, u32)]) -> Result<Keys, Memory>
    requires few { room.depth < 64 }
    requires none { room.rows ≡ [] }
    requires small { All (λ (p : ℕ × ℕ). p.0 < 2 ^ room.depth) pairs.now }
    ensures { IfOk result (λ k. k ≡ record { depth = room.depth; rows = map (λ (p : ℕ × ℕ). high_bits room.depth p.0) pairs.now }) }
{
    let mut keys = room;
    for pair in pairs {
        keys.push_number(pair.0)?;
    }
    Ok(keys)
}

/// Keys of fewer than 64 bits by key, then by number. They are sorted as numbers, and move with their own numbers; those in
/// order stand in the room of the given ones.
fn sort_words(alloc: Global, keys: Keys) -> Result<SortedKeys, Memory>
    requires few { keys.depth < 64 }
    requires count { length keys.rows < 2 ^ 32 }
    ensures order { IfOk result (λ s. IsKdOrder keys.rows s.order) }
    ensures keys { IfOk result (λ s. s.keys ≡ record { depth = keys.depth; rows = map (key_at keys.rows) s.order }) }
{
    let mut pairs = word_pairs(alloc, &keys)?;
    pairs.sort_unstable();
    let order = word_numbers(alloc, pairs.as_slice())?;
    let sorted = word_keys(keys.cleared(), pairs.as_slice())?;
    Ok(SortedKeys {
        keys: sorted,
        order: Sequence::from_vec(order),
    })
}

/// The words of each row beside its number.
fn row_pairs<'a>(
    alloc: Global,
    words: &'a [u64],
    width: usize,
    count: usize,
) -> Result<Vec<(&'a [u64], u32)>, Memory>
    requires count { count < 2 ^ 32 }
    requires length { length words.now ≡ count * width }
    ensures numbers { IfOk result (λ v. map (λ p. p.1) v.items ≡ range_with_len 0 count) }
    ensures rows { IfOk result (λ v. All (λ p. p.0.now ≡ packed_row width words.now p.1) v.items) }
{
    let mut pairs = Vec::with_capacity(alloc, count)?;
    for k in 0..count {
        pairs.push((row_of(words, width, k), k as u32))?;
    }
    Ok(pairs)
}

/// The numbers of pairs.
fn row_numbers(alloc: Global, pairs: &[(&[u64], u32)]) -> Result<Vec<u32>, Memory>
    ensures { IfOk result (λ v. v.items ≡ map (λ p. p.1) pairs.now) }
{
    let numbers = pairs.iter().map(|pair| pair.1).collect(alloc)?;
    Ok(numbers)
}

/// The numbers of rows by their words, then by number.
fn sort_rows(alloc: Global, words: &[u64], width: usize, count: usize) -> Result<Vec<u32>, Memory>
    requires count { count < 2 ^ 32 }
    requires length { length words.now ≡ count * width }
    ensures { IfOk result (λ v. IsOrderBy (row_cmp width words.now) count v.items) }
{
    let mut pairs = row_pairs(alloc, words, width, count)?;
    pairs.sort_unstable();
    let order = row_numbers(alloc, pairs.as_slice())?;
    Ok(order)
}

/// The numbers of packed keys by key, then by number.
fn order_of(alloc: Global, words: &[u64], depth: u32, count: usize) -> Result<Vec<u32>, Memory>
    requires count { count < 2 ^ 32 }
    requires length { length words.now ≡ count * words_for depth }
    requires clean { AreClean depth count words.now }
    ensures { IfOk result (λ v. IsKdOrder (keys_in depth count words.now) v.items) }
{
    let order = sort_rows(alloc, words, words_of(depth), count)?;
    Ok(order)
}

/// The keys with these numbers.
fn gather(alloc: Global, keys: &Keys, order: &[u32]) -> Result<Keys, Memory>
    requires { All (λ i. i < length keys.now.rows) order.now }
    ensures { IfOk result (λ k. k ≡ record { depth = keys.now.depth; rows = map (key_at keys.now.rows) order.now }) }
{
    let mut sorted = Keys::with_capacity(alloc, keys.depth(), order.len())?;
    for number in order {
        sorted.push_from(keys, *number as usize)?;
    }
    Ok(sorted)
}

/// Keys of any number of bits by key, then by number.
fn sort_long(alloc: Global, keys: Keys) -> Result<SortedKeys, Memory>
    requires { length keys.rows < 2 ^ 32 }
    ensures order { IfOk result (λ s. IsKdOrder keys.rows s.order) }
    ensures keys { IfOk result (λ s. s.keys ≡ record { depth = keys.depth; rows = map (key_at keys.rows) s.order }) }
{
    let order = order_of(alloc, keys.words(), keys.depth(), keys.len())?;
    let sorted = gather(alloc, &keys, order.as_slice())?;
    Ok(SortedKeys {
        keys: sorted,
        order: Sequence::from_vec(order),
    })
}

/// Keys by key, then by number.
fn sort(alloc: Global, keys: Keys) -> Result<SortedKeys, Memory>
    requires { length keys.rows < 2 ^ 32 }
    ensures order { IfOk result (λ s. IsKdOrder keys.rows s.order) }
    ensures keys { IfOk result (λ s. s.keys ≡ record { depth = keys.depth; rows = map (key_at keys.rows) s.order }) }
{
    if keys.depth() < 64 {
        return sort_words(alloc, keys);
    }
    sort_long(alloc, keys)
}

/// The keys by key, then by number. The bits of their tree are those of the keys as they stand.
pub fn sort_keys(alloc: Global, keys: Keys) -> Result<SortedKeys, Memory>
    requires { length keys.rows < 2 ^ 32 }
    ensures order { IfOk result (λ s. IsKdOrder keys.rows s.order) }
    ensures keys { IfOk result (λ s. s.keys ≡ record { depth = keys.depth; rows = map (key_at keys.rows) s.order }) }
    ensures settled { IfOk result (λ s. IsSettled keys.depth 0 s.keys.rows) }
    ensures split { IfOk result (λ s. split_bits keys.depth 0 s.keys.rows ≡ split_bits keys.depth 0 keys.rows) }
    ensures rest { IfOk result (λ s. rest_bits keys.depth 0 s.keys.rows ≡ rest_bits keys.depth 0 keys.rows) }
{
    // For the prover alone: each key has its number of bits.
    let _count = keys.len();
    let sorted = sort(alloc, keys)?;
    Ok(sorted)
}
