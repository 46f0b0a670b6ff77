//! The table that is written for counts.

ghost use Rattle.std.specs.Prelude.{◌≡◌, ℕ, ◌+◌, ◌-◌, ◌*◌, ◌/◌, ◌^◌, ◌<◌, ◌≤◌, length, map, sum, count_by, nat_lt, slice_index, slice_set, position, ◌==◌, IfOk};
ghost use Rattle.drc_base.specs.declared.limits.TheConstants.{MAX_TABLE_SYMBOLS as most_symbols};
ghost use Rattle.symbol_tables.specs.Normal.{HasTable, greatest_count, most_frequent, normal, share_of, shares, used_of};

use crate::table::Table;
use drc_base::Memory;
use std::alloc::Global;

/// How many of the counts are positive. It takes no memory.
pub fn used_in(counts: &[u32]) -> usize
    ensures used { result ≡ used_of counts.now }
    ensures most { result ≤ length counts.now }
{
    counts.iter().filter(|n| **n > 0).count()
}

/// The sum of the counts.
fn total_of(counts: &[u32]) -> u32
    requires { sum counts.now < 2 ^ 31 }
    ensures { result ≡ sum counts.now }
{
    counts.iter().sum()
}

/// The greatest of the numbers, or 0. It takes no memory.
pub fn greatest_in(numbers: &[u32]) -> u32
    ensures { result ≡ greatest_count numbers.now }
{
    numbers
        .iter()
        .fold(0, |most, n| if *n > most { *n } else { most })
}

/// The first symbol with this count.
fn first_with(counts: &[u32], count: u32) -> Option<usize>
    ensures { result ≡ position (λ n. n == count) counts.now }
{
    counts.iter().position(|n| *n == count)
}

/// The first symbol with the greatest count.
fn most_frequent_in(counts: &[u32]) -> usize
    ensures { result ≡ most_frequent counts.now }
{
    first_with(counts, greatest_in(counts)).unwrap_or(0)
}

/// The share of a count: a slot and a part of the other ones.
fn share(others: u32, all: u32, count: u32) -> u32
    requires all { count ≤ all }
    requires others { others ≤ 2 ^ 20 }
    ensures share { result ≡ share_of others all count }
    ensures small { result ≤ others + 1 }
{
    if count > 0 {
        (u64::from(count) * u64::from(others) / u64::from(all)) as u32 + 1
    } else {
        0
    }
}

/// The shares of all counts.
fn shares_of(alloc: Global, counts: &[u32], slots: u32) -> Result<Vec<u32>, Memory>
    requires few { length counts.now ≤ most_symbols }
    requires small { sum counts.now < 2 ^ 31 }
    requires slots { slots ≤ 2 ^ 20 }
    requires some { 0 < sum counts.now }
    requires used { used_of counts.now ≤ slots }
    ensures shares { IfOk result (λ v. v.items ≡ shares counts.now slots) }
    ensures sum { IfOk result (λ v. sum v.items ≤ slots) }
{
    let all = total_of(counts);
    let others = slots - used_in(counts) as u32;
    let mut given = Vec::with_capacity(alloc, counts.len())?;
    for n in counts {
        given.push_reserved(share(others, all, *n));
    }
    Ok(given)
}

/// How many slots a precision of `bits` bits has.
#[tactic(auto, using(crate::proofs::Sharing::shifted))]
pub(crate) fn slots_for(bits: u32) -> u32
    requires { bits ≤ 20 }
    ensures slots { result ≡ 2 ^ bits }
    ensures most { result ≤ 2 ^ 20 }
{
    1 << bits
}

/// The probabilities for counts: the shares, and what is left to the most frequent symbol.
#[tactic(auto, unfolding(crate::specs::Normal::normal))]
fn normal_of(alloc: Global, counts: &[u32], bits: u32) -> Result<Vec<u32>, Memory>
    requires high { bits ≤ 20 }
    requires counts { HasTable counts.now bits }
    ensures { IfOk result (λ v. v.items ≡ normal counts.now bits) }
{
    let slots = slots_for(bits);
    let mut probs = shares_of(alloc, counts, slots)?;
    let at = most_frequent_in(counts);
    let left = slots - total_of(probs.as_slice());
    // For the prover alone: the list has a name of its own while it is written.
    let probs_now = probs.as_mut_slice();
    probs_now[at] += left;
    Ok(probs)
}

impl Table {
    /// The table for these counts, one for each symbol: a slot for each symbol that is used, the other of
    /// the 2 to the power `bits` slots by the counts, rounded down, and what is left to the most frequent
    /// symbol, the least such. The last count is positive.
    pub fn of_counts(alloc: Global, counts: &[u32], bits: u32) -> Result<Table, Memory>
        requires low { 12 ≤ bits }
        requires high { bits ≤ 20 }
        requires counts { HasTable counts.now bits }
        ensures table { IfOk result (λ t. t ≡ normal counts.now bits) }
        ensures whole { IfOk result (λ t. sum t ≡ 2 ^ bits) }
        ensures len { IfOk result (λ t. length t ≡ length counts.now) }
        ensures used { IfOk result (λ t. (s : ℕ) → 0 < slice_index counts.now s → 0 < slice_index t s) }
    {
        let probs = normal_of(alloc, counts, bits)?;
        Table::build(alloc, probs)
    }
}
