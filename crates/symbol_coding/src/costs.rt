//! What the two schemes of a block cost, about, and what that is counted from.

ghost use Rattle.std.specs.Prelude.{◌≡◌, ℕ, ◌+◌, ◌-◌, ◌*◌, ◌/◌, ◌%◌, ◌^◌, ◌<◌, ◌≤◌, length, map, max, sum, take, drop, slice_index, count_by, nat_lt, IfOk};
ghost use Rattle.drc_bits.specs.Digits.{digits};
ghost use Rattle.symbol_tables.specs.Normal.{greatest_count, used_of};
ghost use Rattle.symbol_coding.specs.Block.{cost_of_count, length_of, lengths_of, raw_cost, raw_length, tagged_cost};
ghost use Rattle.symbol_coding.specs.Symbols.{counts_of};

use drc_base::{MAX_VALUES, Memory};
use std::alloc::Global;
use symbol_tables::{greatest_in, used_in};

/// The number of binary digits of a number.
pub fn digits_of(v: u32) -> u32
    ensures digits { result ≡ digits v }
    ensures most { result ≤ 32 }
{
    if v == 0 { 0 } else { v.ilog2() + 1 }
}

/// The bit length of symbols with these counts: that of how many are used, from 1 to 18.
pub fn length_of_symbols(counts: &[u32]) -> u32
    requires { length counts.now ≤ 2 ^ 18 }
    ensures length { result ≡ raw_length counts.now }
    ensures least { 1 ≤ result }
    ensures most { result ≤ 18 }
{
    digits_of(used_in(counts) as u32).min(18).max(1)
}

/// The bit length of a group: that of its greatest value, at least 1.
fn length_of_group(group: &[u32]) -> u32
    ensures { result ≡ length_of group.now }
{
    digits_of(greatest_in(group)).max(1)
}

/// The bit lengths of the groups of so many components.
#[tactic(auto, unfolding(crate::specs::Block::lengths_of))]
pub fn lengths_in(alloc: Global, values: &[u32], comps: u32) -> Result<Vec<u32>, Memory>
    requires { 0 < comps }
    ensures { IfOk result (λ v. v.items ≡ lengths_of comps values.now) }
{
    let size = comps as usize;
    let mut lengths = Vec::with_capacity(alloc, values.len() / size)?;
    for g in 0..values.len() / size {
        let start = g * size;
        lengths.push_reserved(length_of_group(&values[start..start + size]));
    }
    Ok(lengths)
}

/// So many zeros.
fn zeros(alloc: Global, n: usize) -> Result<Vec<u32>, Memory>
    ensures len { IfOk result (λ v. length v.items ≡ n) }
    ensures zeros { IfOk result (λ v. (s : ℕ) → slice_index v.items s ≡ 0) }
{
    let mut zeros = Vec::new(alloc);
    zeros.resize(n, 0)?;
    Ok(zeros)
}

/// Counts symbols into zeros.
fn count_into(counts: &mut [u32], symbols: &[u32])
    requires len { length counts.old ≡ greatest_count symbols.now + 1 }
    requires zeros { (s : ℕ) → slice_index counts.old s ≡ 0 }
    requires few { length symbols.now ≤ MAX_VALUES }
    ensures { counts.new ≡ counts_of symbols.now }
{
    for k in 0..symbols.len() {
        let symbol = symbols[k] as usize;
        counts[symbol] += 1;
    }
}

/// How often each symbol occurs, up to the greatest one.
pub fn counts_in(alloc: Global, symbols: &[u32], greatest: u32) -> Result<Vec<u32>, Memory>
    requires greatest { greatest ≡ greatest_count symbols.now }
    requires few { length symbols.now ≤ MAX_VALUES }
    ensures { IfOk result (λ v. v.items ≡ counts_of symbols.now) }
{
    let mut counts = zeros(alloc, greatest as usize + 1)?;
    count_into(counts.as_mut_slice(), symbols);
    Ok(counts)
}

/// What a symbol costs that occurs `count` times among `n`.
fn cost_of(n: u32, count: u32) -> u64
    ensures cost { result ≡ cost_of_count n count }
    ensures small { result < 2 ^ 38 }
{
    if count == 0 {
        return 0;
    }
    u64::from(count) * u64::from(digits_of(n / count))
}

/// What symbols cost, about, in bits: by how often each occurs, and eight for each probability.
pub fn cost_of_symbols(values: &[u32], counts: &[u32]) -> u64
    requires counts { counts.now ≡ counts_of values.now }
    requires small { greatest_count values.now < 2 ^ 20 }
    requires few { length values.now ≤ MAX_VALUES }
    ensures { result ≡ raw_cost values.now }
{
    let n = values.len() as u32;
    let mut cost = 0u64;
    for count in counts {
        cost += cost_of(n, *count);
    }
    cost + 8 * counts.len() as u64
}

/// What groups cost, about, in bits: five for each length, and its values.
pub fn cost_of_groups(values: &[u32], comps: u32, lengths: &[u32]) -> u64
    requires lengths { lengths.now ≡ lengths_of comps values.now }
    requires most { (k : ℕ) → slice_index lengths.now k ≤ 32 }
    requires few { length lengths.now ≤ MAX_VALUES }
    ensures { result ≡ tagged_cost values.now comps }
{
    let mut cost = 0u64;
    for length in lengths {
        cost += 5 + u64::from(comps) * u64::from(*length);
    }
    cost
}
