//! The sides that split events keep.
//!
//! However many symbols are declared, a side can be kept only for one that an event names. So the
//! numbers of these symbols stand in a list that rises, and beside each the side that is kept for it.

ghost use Rattle.std.specs.Prelude.{◌≡◌, ℕ, ◌<◌, length, get_or, IfSome, IfNone};
ghost use Rattle.std.specs.List.{Contains};
ghost use Rattle.std.specs.List.Sorted.{IsStrictlyIncreasing};
ghost use Rattle.eb_rebuild.specs.Kept.{Lacks};

use drc_base::Memory;
use std::alloc::Global;
use std::marker::Model;

/// The entry of a symbol that no side is kept for.
pub(crate) const NONE: u32 = u32::MAX;

/// The sides kept for symbols, with room for the symbols that it is made for.
///
/// Symbols mostly come in rising order, both where sides are kept and where they are taken. So the
/// next symbol's place is looked for behind the last one first.
#[derive(Debug, Drop)]
pub(crate) struct KeptSides {
    symbols: u32,
    numbers: Vec<u32>,
    sides: Vec<u32>,
    /// The place behind the last one where a side was kept.
    next_kept: usize,
    /// The place behind the last one whose side was taken.
    next_taken: usize,
}

impl Model for KeptSides {
    ghost use Rattle.eb_rebuild.specs.Kept.{KeptValue, AreBeside, spread};

    ghost Value = { KeptValue };

    ghost view = { λ k. record { sides = spread k.symbols k.numbers.items k.sides.items; numbers = k.numbers.items } };

    ghost invariant = { λ k. AreBeside k.symbols k.numbers.items k.sides.items };
}

/// The same numbers, each once, in a list that rises.
fn risen(numbers: Vec<u32>) -> Vec<u32>
    ensures rise { IsStrictlyIncreasing result.items }
    ensures all { (k : ℕ) → Contains numbers.items k → Contains result.items k }
    ensures only { (k : ℕ) → Contains result.items k → Contains numbers.items k }
{
    let mut numbers = numbers;
    numbers.sort_unstable();
    numbers.dedup();
    numbers
}

/// The place of a number in a list that rises; None where it isn't there.
#[inline(always)]
fn place_of(numbers: &Vec<u32>, number: u32) -> Option<usize>
    requires { IsStrictlyIncreasing numbers.now.items }
    ensures there { IfSome result (λ i. (i < length numbers.now.items) × (get_or numbers.now.items i 0 ≡ number)) }
    ensures none { IfNone result (Lacks numbers.now.items number) }
{
    match numbers.as_slice().binary_search(&number) {
        Ok(place) => Some(place),
        Err(_) => None,
    }
}

/// The place of a number in a list that rises, looked for at the place `near` first; None where it
/// isn't there.
fn place_near(numbers: &Vec<u32>, near: usize, number: u32) -> Option<usize>
    requires { IsStrictlyIncreasing numbers.now.items }
    ensures there { IfSome result (λ i. (i < length numbers.now.items) × (get_or numbers.now.items i 0 ≡ number)) }
    ensures none { IfNone result (Lacks numbers.now.items number) }
{
    if near < numbers.len() && numbers[near] == number {
        Some(near)
    } else {
        place_of(numbers, number)
    }
}

impl KeptSides {
    ghost use Rattle.std.specs.Prelude.{◌↔◌, IsTrue, MatchBool, set, replicate, All, IfOk};
    ghost use Rattle.corner_table.specs.Table.{free_entry};

    /// No side kept, for so many symbols, with room for those that have these numbers.
    pub(crate) fn new(alloc: Global, symbols: u32, numbers: Vec<u32>) -> Result<KeptSides, Memory>
        requires { All (λ k. k < symbols) numbers.items }
        ensures sides { IfOk result (λ s. s.sides ≡ replicate symbols free_entry) }
        ensures numbers { IfOk result (λ s. (k : ℕ) → Contains numbers.items k → Contains s.numbers k) }
    {
        let numbers = risen(numbers);
        let sides = vec![in alloc; NONE; numbers.len()]?;
        Ok(KeptSides {
            symbols,
            numbers,
            sides,
            next_kept: 0,
            next_taken: 0,
        })
    }

    /// How many symbols there are.
    pub(crate) fn symbols(&self) -> u32
        ensures { result ≡ length self.now.sides }
    {
        self.symbols
    }

    /// Keeps a side for a symbol that there is room for, if none is kept for it; whether none was.
    pub(crate) fn keep(&mut self, symbol: u32, side: u32) -> bool
        requires { Contains self.old.numbers symbol }
        ensures free { IsTrue result ↔ (get_or self.old.sides symbol free_entry ≡ free_entry) }
        ensures sides { MatchBool result (self.new.sides ≡ set self.old.sides symbol side) (self.new.sides ≡ self.old.sides) }
        ensures numbers { self.new.numbers ≡ self.old.numbers }
    {
        match place_near(&self.numbers, self.next_kept, symbol) {
            Some(place) if self.sides[place] == NONE => {
                self.sides[place] = side;
                self.next_kept = place + 1;
                true
            }
            _ => false,
        }
    }

    /// The side kept for a symbol, which is kept no more; else `NONE`.
    pub(crate) fn take(&mut self, symbol: u32) -> u32
        ensures side { result ≡ get_or self.old.sides symbol free_entry }
        ensures sides { self.new.sides ≡ set self.old.sides symbol free_entry }
        ensures numbers { self.new.numbers ≡ self.old.numbers }
    {
        match place_near(&self.numbers, self.next_taken, symbol) {
            None => NONE,
            Some(place) => {
                let side = self.sides[place];
                self.sides[place] = NONE;
                self.next_taken = place + 1;
                side
            }
        }
    }
}
