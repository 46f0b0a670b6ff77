//! Numbers for items by an earlier number and an integer of 32 bits, which is taken by its upper and its lower bits, for which there
//! are lists.

ghost use Rattle.std.specs.Prelude.{◌≡◌, ℕ, ◌-◌, ◌/◌, ◌%◌, ◌^◌, ◌<◌, ◌≤◌, ◌↔◌, map, IfOk, IsTrue, length, slice_index};
ghost use Rattle.first_items.specs.FirstItems.{AreFirstItems};

use crate::numbering::number_pairs;
use drc_base::Memory;
use std::alloc::{AllocError, Global};

/// The upper 16 bits of each number.
fn upper_halves(alloc: Global, bits: &[u32]) -> Result<Vec<u32>, AllocError>
    ensures { IfOk result (λ v. v.items ≡ map (λ (b : ℕ). b / 65536) bits.now) }
{
    bits.iter().map(|b| *b / 0x1_0000).collect(alloc)
}

/// The lower 16 bits of each number.
fn lower_halves(alloc: Global, bits: &[u32]) -> Result<Vec<u32>, AllocError>
    ensures { IfOk result (λ v. v.items ≡ map (λ (b : ℕ). b % 65536) bits.now) }
{
    bits.iter().map(|b| *b % 0x1_0000).collect(alloc)
}

/// Whether the upper 16 bits of all numbers are one.
fn are_alike(bits: &[u32]) -> bool
    ensures { IsTrue result ↔ ((x : ℕ) → x < length bits.now → slice_index bits.now x / 65536 ≡ slice_index bits.now 0 / 65536) }
{
    for x in 0..bits.len() {
        if bits[x] / 0x1_0000 != bits[0] / 0x1_0000 {
            return false;
        }
    }
    true
}

/// One above the greatest of numbers of 16 bits, or 1.
fn bound_of(numbers: &[u32]) -> u32
    requires { (x : ℕ) → x < length numbers.now → slice_index numbers.now x < 2 ^ 16 }
    ensures above { (x : ℕ) → x < length numbers.now → slice_index numbers.now x < result }
    ensures most { result ≤ 2 ^ 16 }
{
    let mut most = 0;
    for x in 0..numbers.len() {
        most = most.max(numbers[x]);
    }
    most + 1
}

/// Whether each item is its own number, so that all are distinguished.
pub fn are_apart(numbers: &[u32]) -> bool
    ensures { IsTrue result ↔ ((x : ℕ) → x < length numbers.now → slice_index numbers.now x ≡ x) }
{
    for x in 0..numbers.len() {
        if numbers[x] as usize != x {
            return false;
        }
    }
    true
}

/// Numbers items by their entries in two lists, the first of which are below `bound`: each by the first one with both of its
/// entries. Takes about four numbers an item, one for each number below `bound`, and at most 2^16. The error is want of memory.
pub fn number_items(
    alloc: Global,
    firsts: &[u32],
    seconds: &[u32],
    bound: u32,
) -> Result<Vec<u32>, Memory>
    requires same { length seconds.now ≡ length firsts.now }
    requires few { length firsts.now < 2 ^ 32 - 1 }
    requires firsts { (x : ℕ) → x < length firsts.now → slice_index firsts.now x < bound }
    ensures { IfOk result (λ numbers. AreFirstItems firsts.now seconds.now numbers.items) }
{
    if are_alike(seconds) {
        let lower = lower_halves(alloc, seconds)?;
        let above = bound_of(lower.as_slice());
        let numbers = number_pairs(alloc, firsts, lower, (bound, above))?;
        return Ok(numbers);
    }
    let upper = upper_halves(alloc, seconds)?;
    let above_upper = bound_of(upper.as_slice());
    let halfway = number_pairs(alloc, firsts, upper, (bound, above_upper))?;
    let lower = lower_halves(alloc, seconds)?;
    let above_lower = bound_of(lower.as_slice());
    let count = firsts.len() as u32;
    let numbers = number_pairs(alloc, halfway.as_slice(), lower, (count, above_lower))?;
    Ok(numbers)
}
