//! A table and its look-ups.

ghost use Rattle.std.specs.Prelude.{◌≡◌, ℕ, ◌+◌, ◌*◌, ◌^◌, ◌<◌, ◌≤◌, List, length, sum, take, slice_index, IfOk, OnOk, OnErr, ◌++◌, [], ◌∷◌, vec_len};
ghost use Rattle.drc_base.specs.declared.limits.TheConstants.{MAX_TABLE_SYMBOLS as most_symbols};
ghost use Rattle.symbol_tables.specs.Tables.{HasSymbol, cum_of};

use crate::slots::Slots;
use drc_base::Memory;
use std::alloc::Global;
use std::marker::Model;

/// The probabilities of symbols 0, 1, and so on: how many slots each has. Contracts see it as the list
/// of the probabilities. The slots of a symbol follow those of the symbols before it, and are all slots
/// together. Draco Bitstream Specification 2.2, section Symbol Decoding.
#[derive(Drop)]
pub struct Table {
    probs: Vec<u32>,
    cums: Vec<u32>,
    slots: Slots,
}

impl Model for Table {
    ghost use Rattle.std.specs.Prelude.{ℕ, List};
    ghost use Rattle.symbol_tables.specs.Slots.{symbols_in};
    ghost use Rattle.symbol_tables.specs.Tables.{IsTable};

    ghost Value = { List ℕ };

    ghost view = { λ t. t.probs.items };

    ghost invariant = { λ t. IsTable t.probs.items t.cums.items (symbols_in t.slots) };
}

/// How many slots lie below those of each symbol.
fn cums_of(alloc: Global, probs: &[u32]) -> Result<Vec<u32>, Memory>
    requires { sum probs.now ≤ 2 ^ 20 }
    ensures len { IfOk result (λ v. length v.items ≡ length probs.now) }
    ensures cums { IfOk result (λ v. (s : ℕ) → s < length probs.now → slice_index v.items s ≡ cum_of probs.now s) }
{
    let mut cums = Vec::with_capacity(alloc, probs.len())?;
    let mut cum = 0u32;
    for s in 0..probs.len() {
        cums.push_reserved(cum);
        cum += probs[s];
    }
    Ok(cums)
}

impl Table {
    /// The table of these probabilities.
    pub(crate) fn build(alloc: Global, probs: Vec<u32>) -> Result<Table, Memory>
        requires some { 0 < length probs.items }
        requires few { length probs.items ≤ most_symbols }
        requires small { sum probs.items ≤ 2 ^ 20 }
        ensures { IfOk result (λ t. t ≡ probs.items) }
    {
        let cums = cums_of(alloc, probs.as_slice())?;
        let slots = Slots::of_probs(alloc, probs.as_slice())?;
        Ok(Table { probs, cums, slots })
    }

    /// The probabilities, at least one and none of them above the number of slots.
    pub(crate) fn probs(&self) -> &[u32]
        ensures probs { result.now ≡ self.now }
        ensures some { 0 < length self.now }
        ensures few { length self.now ≤ most_symbols }
        ensures small { sum self.now ≤ 2 ^ 20 }
    {
        self.probs.as_slice()
    }

    /// How many symbols there are, at least one.
    pub fn len(&self) -> u32
        ensures len { result ≡ length self.now }
        ensures some { 0 < result }
    {
        self.probs.len() as u32
    }

    /// How many slots lie below those of symbol `s`.
    #[inline(always)]
    pub fn cum(&self, s: u32) -> u32
        requires { s < length self.now }
        ensures { result ≡ cum_of self.now s }
    {
        self.cums[s as usize]
    }

    /// How many slots symbol `s` has.
    #[inline(always)]
    pub fn prob(&self, s: u32) -> u32
        requires { s < length self.now }
        ensures { result ≡ slice_index self.now s }
    {
        self.probs[s as usize]
    }

    /// The one symbol that has slot `r`.
    #[inline(always)]
    pub fn find(&self, r: u32) -> u32
        requires { r < sum self.now }
        ensures symbol { HasSymbol self.now r result }
        ensures only { (s : ℕ) → HasSymbol self.now r s → s ≡ result }
    {
        self.slots.symbol(r)
    }
}
