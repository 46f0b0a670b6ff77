//! The bits of a tree from keys in order.

ghost use Rattle.std.specs.Prelude.{◌≡◌, ℕ, ◌+◌, ◌-◌, ◌*◌, ◌<◌, ◌≤◌, ◌^◌, List, ◌∷◌, ◌++◌, length, reverse, All, IfOk, OnOk};
ghost use Rattle.kd_tree.specs.Keys.{Key, bit_at, key_at};
ghost use Rattle.drc_bits.specs.Digits.{digits};
ghost use Rattle.kd_tree.specs.Trees.{IsSettled, high_bits, lower, rest_bits, split_bits, upper};
ghost use Rattle.kd_tree.specs.Walk.{AreDue, nodes_due, part, rests_due, splits_due};

use crate::keys::Keys;
use drc_base::Memory;
use std::alloc::Global;

/// The bits of a tree.
#[derive(Drop)]
pub struct TreeBits {
    /// How many keys lie in the lower box, for each box that is divided.
    pub split: Vec<bool>,
    /// What is left of the keys that are alone in their boxes.
    pub rest: Vec<bool>,
}

/// A box that waits for its bits: where its keys end, and its depth. Its keys begin where those of the box
/// before it end.
#[derive(Clone, Copy)]
pub(crate) struct Due {
    end: u32,
    depth: u32,
}

/// The number of binary digits of a number.
pub(crate) fn digits_of(v: u32) -> u32
    ensures digits { result ≡ digits v }
    ensures most { result ≤ 32 }
{
    if v == 0 {
        return 0;
    }
    v.ilog2() + 1
}

/// Appends the low bits of a number, the high one first.
pub(crate) fn append_number(out: &mut Vec<bool>, number: u64, bits: u32) -> Result<(), Memory>
    requires { bits ≤ 64 }
    ensures { IfOk result (λ _. out.new.items ≡ out.old.items ++ high_bits bits number) }
{
    for k in 0..bits {
        out.push((number >> (bits - 1 - k)) % 2 == 1)?;
    }
    Ok(())
}

/// Where the lower box of a box ends: the box's keys with 0 at a depth stand before those with 1, and are
/// halved again and again.
fn lower_end(keys: &Keys, begin: u32, end: u32, depth: u32) -> u32
    requires begin { begin ≤ end }
    requires end { end ≤ length keys.now.rows }
    requires depth { depth < keys.now.depth }
    requires parted { part begin end keys.now.rows ≡ lower depth (part begin end keys.now.rows) ++ upper depth (part begin end keys.now.rows) }
    ensures { result ≡ begin + length (lower depth (part begin end keys.now.rows)) }
{
    let mut low = begin;
    let mut high = end;
    while low < high {
        let middle = low + (high - low) / 2;
        if keys.bit(middle as usize, depth) {
            high = middle;
        } else {
            low = middle + 1;
        }
    }
    low
}

/// Divides a box: writes how many of its keys lie in the lower box, and puts both boxes on the stack.
fn branch(
    keys: &Keys,
    begin: u32,
    due: Due,
    stack: &mut Vec<Due>,
    split: &mut Vec<bool>,
) -> Result<(), Memory>
    requires due { AreDue keys.now.depth keys.now.rows begin (due ∷ reverse stack.old.items) }
    requires count { length keys.now.rows < 2 ^ 32 }
    requires more { begin + 2 ≤ due.end }
    requires deep { due.depth < keys.now.depth }
    ensures due { IfOk result (λ _. AreDue keys.now.depth keys.now.rows begin (reverse stack.new.items)) }
    ensures split { IfOk result (λ _. split.new.items ++ splits_due keys.now.depth keys.now.rows begin (reverse stack.new.items)
        ≡ split.old.items ++ splits_due keys.now.depth keys.now.rows begin (due ∷ reverse stack.old.items)) }
    ensures rest { IfOk result (λ _. rests_due keys.now.depth keys.now.rows begin (reverse stack.new.items)
        ≡ rests_due keys.now.depth keys.now.rows begin (due ∷ reverse stack.old.items)) }
    ensures fewer { OnOk result (nodes_due keys.now.depth (reverse stack.new.items) < nodes_due keys.now.depth (due ∷ reverse stack.old.items)) }
{
    // For the prover alone: depths are numbers of 32 bits.
    let _depth = keys.depth();
    let middle = lower_end(keys, begin, due.end, due.depth);
    append_number(split, (middle - begin) as u64, digits_of(due.end - begin))?;
    let depth = due.depth + 1;
    stack.push(Due {
        end: due.end,
        depth,
    })?;
    stack.push(Due { end: middle, depth })?;
    Ok(())
}

/// Writes what the box that is due adds, and puts the boxes below it on the stack. Gives where the next box
/// begins.
fn visit(
    keys: &Keys,
    begin: u32,
    due: Due,
    stack: &mut Vec<Due>,
    bits: &mut TreeBits,
) -> Result<u32, Memory>
    requires due { AreDue keys.now.depth keys.now.rows begin (due ∷ reverse stack.old.items) }
    requires count { length keys.now.rows < 2 ^ 32 }
    ensures due { IfOk result (λ at. AreDue keys.now.depth keys.now.rows at (reverse stack.new.items)) }
    ensures split { IfOk result (λ at. bits.new.split.items ++ splits_due keys.now.depth keys.now.rows at (reverse stack.new.items)
        ≡ bits.old.split.items ++ splits_due keys.now.depth keys.now.rows begin (due ∷ reverse stack.old.items)) }
    ensures rest { IfOk result (λ at. bits.new.rest.items ++ rests_due keys.now.depth keys.now.rows at (reverse stack.new.items)
        ≡ bits.old.rest.items ++ rests_due keys.now.depth keys.now.rows begin (due ∷ reverse stack.old.items)) }
    ensures fewer { OnOk result (nodes_due keys.now.depth (reverse stack.new.items) < nodes_due keys.now.depth (due ∷ reverse stack.old.items)) }
{
    if due.end == begin {
        return Ok(due.end);
    }
    if due.depth == keys.depth() {
        return Ok(due.end);
    }
    if due.end - begin == 1 {
        keys.append_rest(begin as usize, due.depth, &mut bits.rest)?;
        return Ok(due.end);
    }
    branch(keys, begin, due, stack, &mut bits.split)?;
    Ok(begin)
}

/// The split bits and the rest bits of the tree of settled keys, as `sort_keys` gives them. It keeps at most
/// one box for each depth waiting, and takes no more time than the bits and the keys ask for, but for the
/// search of the end of each lower box.
pub fn write_tree(alloc: Global, keys: &Keys) -> Result<TreeBits, Memory>
    requires count { length keys.now.rows < 2 ^ 32 }
    requires settled { IsSettled keys.now.depth 0 keys.now.rows }
    ensures split { IfOk result (λ t. t.split.items ≡ split_bits keys.now.depth 0 keys.now.rows) }
    ensures rest { IfOk result (λ t. t.rest.items ≡ rest_bits keys.now.depth 0 keys.now.rows) }
    ensures few { IfOk result (λ t. (length t.split.items ≤ length keys.now.rows * keys.now.depth) × (length t.rest.items ≤ length keys.now.rows * keys.now.depth)) }
{
    // Room for about as many rest bits as keys have that lie evenly.
    let left = keys.depth().saturating_sub(digits_of(keys.len() as u32));
    let room = keys.len().saturating_mul(left as usize);
    let mut bits = TreeBits {
        split: Vec::new(alloc),
        rest: Vec::with_capacity(alloc, room)?,
    };
    let mut stack = Vec::new(alloc);
    stack.push(Due {
        end: keys.len() as u32,
        depth: 0,
    })?;
    let mut begin = 0;
    while let Some(due) = stack.pop() {
        begin = visit(keys, begin, due, &mut stack, &mut bits)?;
    }
    Ok(bits)
}
