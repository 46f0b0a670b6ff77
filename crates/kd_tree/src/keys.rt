//! Keys of points, packed into words.

ghost use Rattle.std.specs.Prelude.{◌≡◌, ℕ, ◌+◌, ◌-◌, ◌*◌, ◌/◌, ◌%◌, ◌^◌, ◌<◌, ◌≤◌, List, Bool, [], ◌∷◌, ◌++◌, length, take, drop, All, IfOk, OnErr, slice_index, slice_index_or, false};
ghost use Rattle.kd_tree.specs.Keys.{Key, KeyRows, bit_at, key_at};
ghost use Rattle.kd_tree.specs.Packing.{AreClean, front_key, keys_in, packed_row, words_for};
ghost use Rattle.kd_tree.specs.Reading.{number_behind};
ghost use Rattle.kd_tree.specs.Trees.{high_bits};

use crate::writing::append_number;
use drc_base::Memory;
use std::alloc::Global;
use std::marker::Model;

/// Keys of points in their order, all of the same number of bits, which may be 0. Contracts see them as
/// lists of bools; they take a bit a bit and at most eight bytes a key more.
#[derive(Drop)]
pub struct Keys {
    words: Vec<u64>,
    depth: u32,
    count: usize,
}

impl Model for Keys {
    ghost use Rattle.std.specs.Prelude.{◌≡◌, ◌*◌, length};
    ghost use Rattle.kd_tree.specs.Keys.{KeyRows};
    ghost use Rattle.kd_tree.specs.Packing.{AreClean, keys_in, words_for};

    ghost Value = { KeyRows };

    ghost view = { λ k. record { depth = k.depth; rows = keys_in k.depth k.count k.words.items } };

    ghost invariant = { λ k. (length k.words.items ≡ k.count * words_for k.depth) × AreClean k.depth k.count k.words.items };
}

/// A number with one more bit behind its own.
pub fn with_bit(number: u64, bit: bool) -> u64
    requires { number < 2 ^ 63 }
    ensures { result ≡ number_behind number (bit ∷ []) }
{
    number * 2 + if bit { 1 } else { 0 }
}

/// The number of bits, the high one first.
pub(crate) fn number_of(bits: &[bool]) -> u64
    requires { length bits.now ≤ 64 }
    ensures { result ≡ number_behind 0 bits.now }
{
    let mut number = 0;
    for bit in bits {
        number = with_bit(number, *bit);
    }
    number
}

/// Appends the words of a key.
fn append_words(words: &mut Vec<u64>, key: &[bool]) -> Result<(), Memory>
    requires { length key.now < 2 ^ 32 }
    ensures kept { take (length words.old.items) words.new.items ≡ words.old.items }
    ensures length { IfOk result (λ _. length words.new.items ≡ length words.old.items + words_for (length key.now)) }
    ensures key { IfOk result (λ _. front_key (length key.now) (drop (length words.old.items) words.new.items) ≡ key.now) }
    ensures last { IfOk result (λ _. slice_index words.new.items (length words.old.items + length key.now / 64) < 2 ^ (length key.now % 64)) }
{
    let whole = key.len() / 64;
    for k in 0..whole {
        words.push(number_of(&key[64 * k..64 * k + 64]))?;
    }
    words.push(number_of(&key[64 * whole..]))?;
    Ok(())
}

/// How many words a key takes.
pub(crate) fn words_of(depth: u32) -> usize
    ensures words { result ≡ words_for depth }
    ensures some { 0 < result }
{
    (depth / 64 + 1) as usize
}

/// The row with this number, of so many words each.
pub(crate) fn row_of(words: &[u64], width: usize, point: usize) -> &[u64]
    requires { point * width + width ≤ length words.now }
    ensures { result.now ≡ packed_row width words.now point }
{
    &words[point * width..point * width + width]
}

/// A bit of a number of this many bits, the high one first.
pub fn bit_in(number: u64, bits: u32, place: u32) -> bool
    requires bits { bits ≤ 64 }
    requires place { place < bits }
    ensures { result ≡ bit_at place (high_bits bits number) }
{
    (number >> (bits - 1 - place)) % 2 == 1
}

impl Keys {
    /// No keys yet, of this many bits. It takes no memory.
    pub fn new(alloc: Global, depth: u32) -> Keys
        ensures { result ≡ record { depth = depth; rows = [] } }
    {
        Keys {
            words: Vec::new(alloc),
            depth,
            count: 0,
        }
    }

    /// No keys yet, of this many bits, with room for so many.
    pub fn with_capacity(alloc: Global, depth: u32, count: usize) -> Result<Keys, Memory>
        ensures { IfOk result (λ k. k ≡ record { depth = depth; rows = [] }) }
    {
        let words = Vec::with_capacity(alloc, count.saturating_mul(words_of(depth)))?;
        Ok(Keys {
            words,
            depth,
            count: 0,
        })
    }

    /// How many bits each key has.
    pub fn depth(&self) -> u32
        ensures { result ≡ self.now.depth }
    {
        self.depth
    }

    /// How many keys there are.
    pub fn len(&self) -> usize
        ensures len { result ≡ length self.now.rows }
        ensures each { All (λ (key : Key). length key ≡ self.now.depth) self.now.rows }
    {
        let _words = self.words.len();
        self.count
    }

    /// Adds a key behind the others; they stay as they are when out of memory.
    pub fn push(&mut self, key: &[bool]) -> Result<(), Memory>
        requires { length key.now ≡ self.old.depth }
        ensures added { IfOk result (λ _. self.new ≡ record { depth = self.old.depth; rows = self.old.rows ++ key.now ∷ [] }) }
        ensures same { OnErr result (self.new ≡ self.old) }
    {
        let before = self.words.len();
        match append_words(&mut self.words, key) {
            Ok(()) => {
                self.count += 1;
                Ok(())
            }
            Err(memory) => {
                self.words.truncate(before);
                Err(memory)
            }
        }
    }

    /// The bit of a key at a depth.
    pub fn bit(&self, point: usize, depth: u32) -> bool
        requires point { point < length self.now.rows }
        requires depth { depth < self.now.depth }
        ensures { result ≡ bit_at depth (key_at self.now.rows point) }
    {
        let word = self.words[point * words_of(self.depth) + (depth / 64) as usize];
        if depth / 64 < self.depth / 64 {
            return bit_in(word, 64, depth % 64);
        }
        bit_in(word, self.depth % 64, depth % 64)
    }

    /// The number of a key of fewer than 64 bits: its bits, the high one first.
    pub fn number(&self, point: usize) -> u64
        requires point { point < length self.now.rows }
        requires few { self.now.depth < 64 }
        ensures bits { key_at self.now.rows point ≡ high_bits self.now.depth result }
        ensures small { result < 2 ^ self.now.depth }
    {
        self.words[point]
    }

    /// No keys, of as many bits, in the same room.
    pub(crate) fn cleared(self) -> Keys
        ensures { result ≡ record { depth = self.depth; rows = [] } }
    {
        let mut words = self.words;
        words.clear();
        Keys {
            words,
            depth: self.depth,
            count: 0,
        }
    }

    /// Adds the key of fewer than 64 bits with this number behind the others; they stay as they are when out of
    /// memory.
    pub fn push_number(&mut self, number: u64) -> Result<(), Memory>
        requires few { self.old.depth < 64 }
        requires number { number < 2 ^ self.old.depth }
        ensures added { IfOk result (λ _. self.new ≡ record { depth = self.old.depth; rows = self.old.rows ++ high_bits self.old.depth number ∷ [] }) }
        ensures same { OnErr result (self.new ≡ self.old) }
    {
        self.words.push(number)?;
        self.count += 1;
        Ok(())
    }

    /// The words of the keys.
    pub(crate) fn words(&self) -> &[u64]
        ensures rows { self.now.rows ≡ keys_in self.now.depth (length self.now.rows) result.now }
        ensures len { length result.now ≡ length self.now.rows * words_for self.now.depth }
        ensures clean { AreClean self.now.depth (length self.now.rows) result.now }
    {
        self.words.as_slice()
    }

    /// Adds a key of other keys.
    pub(crate) fn push_from(&mut self, keys: &Keys, point: usize) -> Result<(), Memory>
        requires point { point < length keys.now.rows }
        requires depth { keys.now.depth ≡ self.old.depth }
        ensures { IfOk result (λ _. self.new ≡ record { depth = self.old.depth; rows = self.old.rows ++ key_at keys.now.rows point ∷ [] }) }
    {
        let row = row_of(keys.words.as_slice(), words_of(keys.depth), point);
        self.words.extend_from_slice(row)?;
        self.count += 1;
        Ok(())
    }

    /// Appends the bits of a key from a depth on: of a key of one word they are its low bits.
    pub(crate) fn append_rest(
        &self,
        point: usize,
        depth: u32,
        out: &mut Vec<bool>,
    ) -> Result<(), Memory>
        requires point { point < length self.now.rows }
        requires depth { depth ≤ self.now.depth }
        ensures { IfOk result (λ _. out.new.items ≡ out.old.items ++ drop depth (key_at self.now.rows point)) }
    {
        if self.depth < 64 {
            append_number(out, self.words[point], self.depth - depth)?;
            return Ok(());
        }
        for d in depth..self.depth {
            out.push(self.bit(point, d))?;
        }
        Ok(())
    }
}
