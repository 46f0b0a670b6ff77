//! The symbol of each slot.

ghost use Rattle.std.specs.Prelude.{◌≡◌, ℕ, ◌+◌, ◌^◌, ◌<◌, ◌≤◌, length, sum, slice_index, IfOk};
ghost use Rattle.drc_base.specs.declared.limits.TheConstants.{MAX_TABLE_SYMBOLS as most_symbols};
ghost use Rattle.symbol_tables.specs.Slots.{symbols_in};
ghost use Rattle.symbol_tables.specs.Tables.{HasSymbol};

use drc_base::Memory;
use std::alloc::Global;

/// The symbol of each slot: in 16 bits where all symbols have so many, since half the memory is then looked
/// at, else in 32.
#[derive(Drop)]
pub(crate) enum Slots {
    Narrow(Vec<u16>),
    Wide(Vec<u32>),
}

/// The symbol of each slot, in 16 bits.
fn narrow_slots(alloc: Global, probs: &[u32]) -> Result<Vec<u16>, Memory>
    requires few { length probs.now ≤ 2 ^ 16 }
    requires small { sum probs.now ≤ 2 ^ 20 }
    ensures len { IfOk result (λ v. length v.items ≡ sum probs.now) }
    ensures slots { IfOk result (λ v. (slot : ℕ) → slot < sum probs.now → HasSymbol probs.now slot (slice_index v.items slot)) }
{
    let mut slots = Vec::new(alloc);
    for s in 0..probs.len() {
        let end = slots.len() + probs[s] as usize;
        slots.resize(end, s as u16)?;
    }
    Ok(slots)
}

/// The symbol of each slot, in 32 bits.
fn wide_slots(alloc: Global, probs: &[u32]) -> Result<Vec<u32>, Memory>
    requires few { length probs.now ≤ most_symbols }
    requires small { sum probs.now ≤ 2 ^ 20 }
    ensures len { IfOk result (λ v. length v.items ≡ sum probs.now) }
    ensures slots { IfOk result (λ v. (slot : ℕ) → slot < sum probs.now → HasSymbol probs.now slot (slice_index v.items slot)) }
{
    let mut slots = Vec::new(alloc);
    for s in 0..probs.len() {
        let end = slots.len() + probs[s] as usize;
        slots.resize(end, s as u32)?;
    }
    Ok(slots)
}

impl Slots {
    /// The slots of these probabilities.
    pub(crate) fn of_probs(alloc: Global, probs: &[u32]) -> Result<Slots, Memory>
        requires few { length probs.now ≤ most_symbols }
        requires small { sum probs.now ≤ 2 ^ 20 }
        ensures len { IfOk result (λ s. length (symbols_in s) ≡ sum probs.now) }
        ensures slots { IfOk result (λ s. (slot : ℕ) → slot < sum probs.now → HasSymbol probs.now slot (slice_index (symbols_in s) slot)) }
    {
        if probs.len() <= 1 << 16 {
            Ok(Slots::Narrow(narrow_slots(alloc, probs)?))
        } else {
            Ok(Slots::Wide(wide_slots(alloc, probs)?))
        }
    }

    /// The symbol of a slot.
    #[inline(always)]
    pub(crate) fn symbol(&self, slot: u32) -> u32
        requires { slot < length (symbols_in self.now) }
        ensures { result ≡ slice_index (symbols_in self.now) slot }
    {
        match self {
            Slots::Narrow(symbols) => u32::from(symbols[slot as usize]),
            Slots::Wide(symbols) => symbols[slot as usize],
        }
    }
}
