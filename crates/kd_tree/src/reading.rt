//! Keys in order from the bits of a tree.

ghost use Rattle.std.specs.Prelude.{◌≡◌, ℕ, ◌+◌, ◌-◌, ◌<◌, ◌≤◌, ◌^◌, List, [], ◌∷◌, ◌++◌, length, replicate, reverse, IfOk};
ghost use Rattle.drc_bits.specs.Digits.{digits};
ghost use Rattle.kd_tree.specs.Reading.{GivesTree, number_behind, tree_of};
ghost use Rattle.kd_tree.specs.Turns.{AreNested, IsDescended, IsFewer, IsDueNext, IsTaken, IsTurned, going, nodes_waiting, turns_left, waiting};
ghost use Rattle.kd_tree.specs.Walk.{nodes};
ghost use Rattle.rans_binary.specs.Blocks.{Block, behind, first_bits};

use crate::keys::{Keys, number_of, with_bit};
use crate::writing::digits_of;
use drc_base::{Fault, Memory, Refusal};
use rans_binary::BitBlock;
use std::alloc::Global;

/// An upper box that waits: how many keys it has, and the depth of the box that it is a part of. Its keys
/// agree with the path so far in as many bits, and then in a 1.
#[derive(Clone, Copy)]
struct Pending {
    count: u32,
    depth: u32,
}

/// The number of bits and of the next ones of a block behind them, the high one first. The block is copied
/// and written back: the loop then works on a local of its own.
fn number_after(block: &mut BitBlock<'_>, front: &[bool], bits: u32) -> u64
    requires { length front.now + bits ≤ 64 }
    ensures number { result ≡ number_behind 0 (front.now ++ first_bits bits block.old) }
    ensures after { block.new ≡ behind bits block.old }
{
    let mut ahead = block.copy();
    let mut number = number_of(front);
    for _ in 0..bits {
        let bit = ahead.next();
        number = with_bit(number, bit);
    }
    *block = ahead;
    number
}

/// The number of the next bits, the high one first.
fn next_number(block: &mut BitBlock<'_>, bits: u32) -> u32
    requires { bits ≤ 32 }
    ensures number { result ≡ number_behind 0 (first_bits bits block.old) }
    ensures after { block.new ≡ behind bits block.old }
{
    number_after(block, &[], bits) as u32
}

/// Appends the next bits.
fn append_bits(out: &mut Vec<bool>, block: &mut BitBlock<'_>, bits: u32) -> Result<(), Memory>
    ensures bits { IfOk result (λ _. out.new.items ≡ out.old.items ++ first_bits bits block.old) }
    ensures after { IfOk result (λ _. block.new ≡ behind bits block.old) }
{
    for _ in 0..bits {
        let bit = block.next();
        out.push(bit)?;
    }
    Ok(())
}

/// Appends the key of a box of one key, of any number of bits: the path to it, and the bits that are left. They
/// are put on the path and taken from it again.
fn append_long(out: &mut Keys, rest: &mut BitBlock<'_>, path: &mut Vec<bool>) -> Result<(), Memory>
    requires { length path.old.items ≤ out.old.depth }
    ensures path { IfOk result (λ _. path.new.items ≡ path.old.items) }
    ensures rest { IfOk result (λ _. rest.new ≡ behind (out.old.depth - length path.old.items) rest.old) }
    ensures out { IfOk result (λ _. out.new ≡ record {
      depth = out.old.depth;
      rows = out.old.rows ++ (path.old.items ++ first_bits (out.old.depth - length path.old.items) rest.old) ∷ [];
    }) }
{
    let deep = path.len();
    append_bits(path, rest, out.depth() - deep as u32)?;
    out.push(path.as_slice())?;
    path.truncate(deep);
    Ok(())
}

/// Appends the key of a box of one key: the path to it, and the bits that are left. A key of fewer than 64 bits
/// is put together as a number.
fn append_single(
    out: &mut Keys,
    rest: &mut BitBlock<'_>,
    path: &mut Vec<bool>,
) -> Result<(), Memory>
    requires { length path.old.items ≤ out.old.depth }
    ensures path { IfOk result (λ _. path.new.items ≡ path.old.items) }
    ensures rest { IfOk result (λ _. rest.new ≡ behind (out.old.depth - length path.old.items) rest.old) }
    ensures out { IfOk result (λ _. out.new ≡ record {
      depth = out.old.depth;
      rows = out.old.rows ++ (path.old.items ++ first_bits (out.old.depth - length path.old.items) rest.old) ∷ [];
    }) }
{
    let depth = out.depth();
    if depth < 64 {
        let number = number_after(rest, path.as_slice(), depth - path.len() as u32);
        out.push_number(number)?;
        return Ok(());
    }
    append_long(out, rest, path)?;
    Ok(())
}

/// Appends equal keys.
fn append_copies(out: &mut Keys, key: &[bool], count: u32) -> Result<(), Memory>
    requires { 0 < count → length key.now ≡ out.old.depth }
    ensures { IfOk result (λ _. out.new ≡ record { depth = out.old.depth; rows = out.old.rows ++ replicate count key.now }) }
{
    for _ in 0..count {
        out.push(key)?;
    }
    Ok(())
}

/// Goes down into the lower box, and puts the upper box on the stack. Gives the count of the lower box, or
/// the fault where that is above the count of the box itself.
fn descend(
    split: &mut BitBlock<'_>,
    path: &mut Vec<bool>,
    stack: &mut Vec<Pending>,
    count: u32,
    fault: Fault,
) -> Result<Option<u32>, Refusal>
    requires { length path.old.items < 2 ^ 32 }
    ensures { IsDescended fault count split.old path.old.items (reverse stack.old.items) split.new path.new.items (reverse stack.new.items) result }
{
    let low = next_number(split, digits_of(count));
    if low > count {
        return Err(Refusal::Fault(fault));
    }
    stack.push(Pending {
        count: count - low,
        depth: path.len() as u32,
    })?;
    path.push(false)?;
    Ok(Some(low))
}

/// Takes the next box from the stack: gives its count, and brings the path to it.
fn next_box(path: &mut Vec<bool>, stack: &mut Vec<Pending>) -> Result<Option<u32>, Memory>
    ensures { IfOk result (λ next. IsTaken path.old.items (reverse stack.old.items) path.new.items (reverse stack.new.items) next) }
{
    let Some(next) = stack.pop() else {
        return Ok(None);
    };
    path.truncate(next.depth as usize);
    path.push(true)?;
    Ok(Some(next.count))
}

/// Appends the keys of a box that isn't divided: none, one, or equal ones.
fn append_leaf(
    out: &mut Keys,
    rest: &mut BitBlock<'_>,
    path: &mut Vec<bool>,
    count: u32,
) -> Result<(), Memory>
    requires deep { length path.old.items ≤ out.old.depth }
    requires leaf { 2 ≤ count → length path.old.items ≡ out.old.depth }
    ensures keys { IfOk result (λ _. (fault : Fault) (stack : List Pending) (split : Block) → AreNested (length path.old.items) stack
        → going fault out.old.depth count path.old.items stack out.old.rows (record { split = split; rest = rest.old })
        ≡ waiting fault out.old.depth path.new.items stack out.new.rows (record { split = split; rest = rest.new })) }
    ensures path { IfOk result (λ _. path.new.items ≡ path.old.items) }
    ensures depth { IfOk result (λ _. out.new.depth ≡ out.old.depth) }
{
    if count == 1 {
        append_single(out, rest, path)?;
        return Ok(());
    }
    append_copies(out, path.as_slice(), count)?;
    Ok(())
}

/// Appends the keys of a box that isn't divided, and takes the next box.
fn end_box(
    out: &mut Keys,
    rest: &mut BitBlock<'_>,
    path: &mut Vec<bool>,
    stack: &mut Vec<Pending>,
    count: u32,
) -> Result<Option<u32>, Memory>
    requires deep { length path.old.items ≤ out.old.depth }
    requires nested { AreNested (length path.old.items) (reverse stack.old.items) }
    requires leaf { 2 ≤ count → length path.old.items ≡ out.old.depth }
    ensures next { IfOk result (λ next. (fault : Fault) (split : Block) → IsDueNext fault out.old.depth
        (going fault out.old.depth count path.old.items (reverse stack.old.items) out.old.rows (record { split = split; rest = rest.old }))
        path.new.items (reverse stack.new.items) out.new.rows (record { split = split; rest = rest.new }) next) }
    ensures fewer { IfOk result (λ next. turns_left out.old.depth path.new.items (reverse stack.new.items) next
        < nodes (out.old.depth - length path.old.items) + nodes_waiting out.old.depth (reverse stack.old.items)) }
    ensures depth { IfOk result (λ _. out.new.depth ≡ out.old.depth) }
{
    append_leaf(out, rest, path, count)?;
    let next = next_box(path, stack)?;
    Ok(next)
}

/// Reads what the current box adds. Gives the count of the next box, if one is left.
fn turn(
    out: &mut Keys,
    split: &mut BitBlock<'_>,
    rest: &mut BitBlock<'_>,
    path: &mut Vec<bool>,
    stack: &mut Vec<Pending>,
    count: u32,
    fault: Fault,
) -> Result<Option<u32>, Refusal>
    requires deep { length path.old.items ≤ out.old.depth }
    requires nested { AreNested (length path.old.items) (reverse stack.old.items) }
    ensures turned { IsTurned fault out.old.depth
        (going fault out.old.depth count path.old.items (reverse stack.old.items) out.old.rows (record { split = split.old; rest = rest.old }))
        path.new.items (reverse stack.new.items) out.new.rows (record { split = split.new; rest = rest.new }) result }
    ensures fewer { IsFewer (nodes (out.old.depth - length path.old.items) + nodes_waiting out.old.depth (reverse stack.old.items))
        out.old.depth path.new.items (reverse stack.new.items) result }
    ensures depth { IfOk result (λ _. out.new.depth ≡ out.old.depth) }
{
    if count >= 2 && path.len() < out.depth() as usize {
        return descend(split, path, stack, count, fault);
    }
    let next = end_box(out, rest, path, stack, count)?;
    Ok(next)
}

/// The keys of a tree of `count` keys of `depth` bits, in order, from the block of its split bits and that of
/// its rest bits, which then stand behind the bits that were taken. The fault where more keys lie in a lower
/// box than in the box itself. Room grows with the keys that are written, and at most one box for each
/// depth waits.
pub fn read_tree(
    alloc: Global,
    split: &mut BitBlock<'_>,
    rest: &mut BitBlock<'_>,
    count: u32,
    depth: u32,
    fault: Fault,
) -> Result<Keys, Refusal>
    ensures { GivesTree depth (tree_of fault depth count (record { split = split.old; rest = rest.old })) (record { split = split.new; rest = rest.new }) result }
{
    let mut out = Keys::new(alloc, depth);
    let mut path = Vec::new(alloc);
    let mut stack = Vec::new(alloc);
    let mut next = Some(count);
    while let Some(box_count) = next {
        next = turn(
            &mut out, split, rest, &mut path, &mut stack, box_count, fault,
        )?;
    }
    Ok(out)
}
