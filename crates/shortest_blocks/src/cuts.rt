//! Cuts of bit lengths into runs of neighbours, of which each run is joined to its last length.

ghost use Rattle.std.specs.Prelude.{◌≡◌, ℕ, ◌+◌, ◌-◌, ◌*◌, ◌/◌, ◌^◌, ◌<◌, ◌≤◌, ◌++◌, [], ◌∷◌, All, length, sum, take, slice_index, slice_index_or, IfOk, OnOk};
ghost use Rattle.shortest_blocks.specs.Cuts.{AreCuts, best_cut, cost_behind, cuts_below, no_cut, with_run};

use crate::costs::cost_of_run;
use drc_base::{MAX_VALUES, Memory, Sequence};
use std::alloc::Global;

/// A cut of the bit lengths up to a last one.
#[derive(Drop)]
pub struct Cut {
    /// How many groups have one of these lengths.
    pub groups: u32,
    /// What they cost together.
    pub cost: u64,
    /// What each length becomes, from 0 up to the last one.
    pub joined: Sequence<u32>,
}

/// What is to be joined at a bit length, of the groups that are not in a cut before it.
#[derive(Clone, Copy)]
pub struct Run {
    /// How many groups there are.
    pub all: u32,
    /// How many values each has.
    pub comps: u32,
    /// The bit length.
    pub last: u32,
    /// How many groups have at most this length.
    pub groups: u32,
}

/// What a cut and the run behind it cost.
fn cost_behind(run: Run, cut: &Cut) -> u64
    requires some { cut.now.groups < run.groups }
    requires within { run.groups ≤ run.all }
    requires small { run.all * run.comps ≤ MAX_VALUES }
    requires last { run.last ≤ 32 }
    requires short { length cut.now.joined ≤ run.last }
    requires cost { cut.now.cost ≤ run.last * 2 ^ 43 }
    ensures cost { result ≡ cost_behind run cut.now }
    ensures most { result ≤ (run.last + 1) * 2 ^ 43 }
{
    let first = cut.joined.len() as u32;
    cut.cost + cost_of_run(run.all, run.comps, first, run.last, run.groups - cut.groups)
}

/// The place of the cut behind which the run costs least, the first such.
fn best_before(run: Run, cuts: &[Cut]) -> usize
    requires some { 0 < length cuts.now }
    requires within { run.groups ≤ run.all }
    requires small { run.all * run.comps ≤ MAX_VALUES }
    requires last { run.last ≤ 32 }
    requires cuts { AreCuts run cuts.now }
    ensures within { result < length cuts.now }
    ensures best { with_run run (slice_index_or cuts.now result no_cut) ≡ best_cut run cuts.now }
{
    let mut best = 0;
    for i in 1..cuts.len() {
        if cost_behind(run, &cuts[i]) < cost_behind(run, &cuts[best]) {
            best = i;
        }
    }
    best
}

/// The cut with the run behind it.
fn joined_with(alloc: Global, run: Run, cut: &Cut) -> Result<Cut, Memory>
    requires some { cut.now.groups < run.groups }
    requires within { run.groups ≤ run.all }
    requires small { run.all * run.comps ≤ MAX_VALUES }
    requires last { run.last ≤ 32 }
    requires short { length cut.now.joined ≤ run.last }
    requires cost { cut.now.cost ≤ run.last * 2 ^ 43 }
    ensures { IfOk result (λ c. c ≡ with_run run cut.now) }
{
    let mut joined = Vec::new(alloc);
    joined.extend_from_slice(cut.joined.as_slice())?;
    joined.resize(run.last as usize + 1, run.last)?;
    Ok(Cut {
        groups: run.groups,
        cost: cost_behind(run, cut),
        joined: Sequence::from_vec(joined),
    })
}

/// Adds the best cut that ends with the run to those up to each length before it.
fn add_best(alloc: Global, run: Run, cuts: &mut Vec<Cut>) -> Result<(), Memory>
    requires some { 0 < length cuts.old.items }
    requires within { run.groups ≤ run.all }
    requires small { run.all * run.comps ≤ MAX_VALUES }
    requires last { run.last ≤ 32 }
    requires cuts { AreCuts run cuts.old.items }
    ensures { OnOk result (cuts.new.items ≡ cuts.old.items ++ best_cut run cuts.old.items ∷ []) }
{
    let at = best_before(run, cuts.as_slice());
    let cut = joined_with(alloc, run, &cuts[at])?;
    cuts.push(cut)?;
    Ok(())
}

/// The best cuts of the lengths that occur, up to each of them, behind the cut of no lengths.
pub fn cuts_in(alloc: Global, counts: &[u32], all: u32, comps: u32) -> Result<Vec<Cut>, Memory>
    requires whole { sum counts.now ≤ all }
    requires few { length counts.now ≤ 33 }
    requires small { all * comps ≤ MAX_VALUES }
    ensures { IfOk result (λ v. v.items ≡ cuts_below counts.now all comps (length counts.now)) }
{
    let mut cuts = Vec::new(alloc);
    cuts.push(Cut {
        groups: 0,
        cost: 0,
        joined: Sequence::from_vec(Vec::new(alloc)),
    })?;
    let mut groups = 0;
    for last in 0..counts.len() {
        groups += counts[last];
        if counts[last] > 0 {
            let run = Run {
                all,
                comps,
                last: last as u32,
                groups,
            };
            add_best(alloc, run, &mut cuts)?;
        }
    }
    Ok(cuts)
}
