//! Numbers for pairs of numbers: equal ones for equal pairs.
//!
//! Items stand in lists by their first entry. Along one list each second entry keeps the item at which
//! it is met first, and this item is the number of all that follow with the same entry. What an
//! earlier list kept is recognised by its first entry, so nothing is cleared between lists. Numbers
//! take the places of the second entries, which are read once.

ghost use Rattle.std.specs.Prelude.{◌≡◌, ℕ, ◌-◌, ◌+◌, ◌^◌, ◌<◌, ◌≤◌, ◌↔◌, IfOk, IsTrue, List, get_or, length, slice_index, vec_len};
ghost use Rattle.first_items.specs.Chains.{AreLinked, AreFirsts};
ghost use Rattle.first_items.specs.FirstItems.{IsFirstWith, AreFirstItems, AreNumberedBelow, AreSecondsFrom, AreKept, AreKeptTo};

use crate::chains::{Chains, NONE, chains_of};
use drc_base::Memory;
use std::alloc::Global;

/// Whether this is an item of a list.
fn is_in(firsts: &[u32], item: u32, list: u32) -> bool
    ensures { IsTrue result ↔ (item < length firsts.now) × (slice_index firsts.now item ≡ list) }
{
    (item as usize) < firsts.len() && firsts[item as usize] == list
}

/// The first item of a list with the second entry of item `at`: the one that is kept, or else `at`,
/// which is kept from now on.
fn first_like(firsts: &[u32], kept: &mut [u32], list: u32, at: u32, second: u32) -> u32
    ghost seconds: { List ℕ }
    requires item { at < length firsts.now }
    requires second { get_or seconds at 0 ≡ second }
    requires room { second < length kept.old }
    requires here { slice_index firsts.now at ≡ list }
    requires kept { AreKeptTo firsts.now seconds kept.old list at }
    ensures first { IsFirstWith firsts.now seconds at result }
    ensures kept { AreKeptTo firsts.now seconds kept.new list (at + 1) }
{
    let place = second as usize;
    let found = kept[place];
    if is_in(firsts, found, list) {
        found
    } else {
        kept[place] = at;
        at
    }
}

/// Numbers the items of a list, from its head on, in the places of their second entries.
fn number_list(
    firsts: &[u32],
    nexts: &[u32],
    kept: &mut [u32],
    numbers: &mut [u32],
    list: u32,
    head: u32,
)
    ghost seconds: { List ℕ }
    requires room { (x : ℕ) → x < length firsts.now → get_or seconds x 0 < length kept.old }
    requires each { length numbers.old ≡ length firsts.now }
    requires linked { AreLinked firsts.now nexts.now 0 }
    requires head { head < length firsts.now → slice_index firsts.now head ≡ list }
    requires least { (z : ℕ) → z < length firsts.now → slice_index firsts.now z ≡ list → head ≤ z }
    requires kept { AreKept firsts.now seconds kept.old list }
    requires numbered { AreNumberedBelow firsts.now seconds numbers.old list }
    requires rest { AreSecondsFrom firsts.now seconds numbers.old list }
    ensures kept { AreKept firsts.now seconds kept.new (list + 1) }
    ensures numbered { AreNumberedBelow firsts.now seconds numbers.new (list + 1) }
    ensures rest { AreSecondsFrom firsts.now seconds numbers.new (list + 1) }
{
    let mut at = head;
    while (at as usize) < firsts.len() {
        let second = numbers[at as usize];
        numbers[at as usize] = first_like(firsts, kept, list, at, second);
        at = nexts[at as usize];
    }
}

/// Numbers the items of all lists in the places of their second entries.
fn number_lists(firsts: &[u32], chains: &Chains, kept: &mut [u32], numbers: &mut [u32], bound: u32)
    ghost seconds: { List ℕ }
    requires same { length seconds ≡ length firsts.now }
    requires firsts { (x : ℕ) → x < length firsts.now → slice_index firsts.now x < bound }
    requires room { (x : ℕ) → x < length firsts.now → get_or seconds x 0 < length kept.old }
    requires linked { AreLinked firsts.now chains.now.nexts.items 0 }
    requires heads { AreFirsts firsts.now chains.now.firsts.items bound 0 }
    requires none { (b : ℕ) → b < length kept.old → length firsts.now ≤ slice_index kept.old b }
    requires seconds { numbers.old ≡ seconds }
    ensures { AreFirstItems firsts.now seconds numbers.new }
{
    let nexts = chains.nexts.as_slice();
    for list in 0..bound {
        let head = chains.firsts[list as usize];
        number_list(firsts, nexts, kept, numbers, list, head);
    }
}

/// Numbers items by the pair of their entries in two lists, below `bounds`: each by the first one with
/// its pair. Takes one number an item and one for each number below the bounds. The error is want of memory.
pub fn number_pairs(
    alloc: Global,
    firsts: &[u32],
    seconds: Vec<u32>,
    bounds: (u32, u32),
) -> Result<Vec<u32>, Memory>
    requires same { vec_len seconds ≡ length firsts.now }
    requires few { length firsts.now < 2 ^ 32 - 1 }
    requires firsts { (x : ℕ) → x < length firsts.now → slice_index firsts.now x < bounds.0 }
    requires seconds { (x : ℕ) → x < length firsts.now → slice_index seconds.items x < bounds.1 }
    ensures { IfOk result (λ numbers. AreFirstItems firsts.now seconds.items numbers.items) }
{
    let chains = chains_of(alloc, firsts, bounds.0)?;
    let mut kept = vec![in alloc; NONE; bounds.1 as usize]?;
    let mut numbers = seconds;
    number_lists(
        firsts,
        &chains,
        kept.as_mut_slice(),
        numbers.as_mut_slice(),
        bounds.0,
    );
    Ok(numbers)
}
