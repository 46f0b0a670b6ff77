//! The bit lengths of groups, and what they become where neighbouring lengths are joined.

ghost use Rattle.std.specs.Prelude.{◌≡◌, ℕ, ◌+◌, ◌-◌, ◌*◌, ◌/◌, ◌%◌, ◌^◌, ◌<◌, ◌≤◌, length, map, slice_index, IfOk};
ghost use Rattle.symbol_tables.specs.Normal.{greatest_count};
ghost use Rattle.drc_bits.specs.Digits.{digits};
ghost use Rattle.shortest_blocks.specs.Joined.{digits_of_groups, joined_lengths};

use crate::cuts::cuts_in;
use drc_base::{MAX_VALUES, Memory};
use std::alloc::Global;
use symbol_coding::{counts_in, digits_of};
use symbol_tables::greatest_in;

/// The digits of the greatest value of each group: 0 where all are 0.
#[tactic(auto, unfolding(crate::specs::Joined::digits_of_groups))]
pub fn digits_in_groups(alloc: Global, values: &[u32], comps: u32) -> Result<Vec<u32>, Memory>
    requires { 0 < comps }
    ensures { IfOk result (λ v. v.items ≡ digits_of_groups comps values.now) }
{
    let size = comps as usize;
    let mut lengths = Vec::with_capacity(alloc, values.len() / size)?;
    for g in 0..values.len() / size {
        let start = g * size;
        lengths.push_reserved(digits_of(greatest_in(&values[start..start + size])));
    }
    Ok(lengths)
}

/// What these bit lengths of groups of so many components become.
#[tactic(auto, unfolding(crate::specs::Joined::joined_lengths))]
pub fn join(alloc: Global, lengths: &[u32], comps: u32) -> Result<Vec<u32>, Memory>
    requires some { 0 < length lengths.now }
    requires small { length lengths.now * comps ≤ MAX_VALUES }
    requires comps { 0 < comps }
    requires most { (k : ℕ) → slice_index lengths.now k ≤ 32 }
    ensures { IfOk result (λ v. v.items ≡ joined_lengths comps lengths.now) }
{
    let counts = counts_in(alloc, lengths, greatest_in(lengths))?;
    let cuts = cuts_in(alloc, counts.as_slice(), lengths.len() as u32, comps)?;
    let joined = cuts[cuts.len() - 1].joined.as_slice();
    let mut all = Vec::with_capacity(alloc, lengths.len())?;
    for length in lengths {
        all.push_reserved(joined[*length as usize]);
    }
    Ok(all)
}
