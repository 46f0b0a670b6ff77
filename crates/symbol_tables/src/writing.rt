//! Writing a table.

ghost use Rattle.std.specs.Prelude.{◌≡◌, ℕ, ◌+◌, ◌-◌, ◌*◌, ◌/◌, ◌%◌, ◌^◌, ◌<◌, ◌≤◌, ◌++◌, List, Ok, length, min, drop, sum, slice_index, IfOk, OnOk, OnErr};
ghost use Rattle.drc_bits.specs.Spells.{Spells};
ghost use Rattle.symbol_tables.specs.Tables.{prob_bytes, probs_bytes, table_at, table_bytes, zeros_before};

use crate::table::Table;
use arrayvec::ArrayVec;
use drc_base::Memory;
use drc_bits::put_var32;
use std::alloc::Global;

/// A probability in the fewest bytes: its low six bits above the number of the bytes that follow, and
/// these.
#[tactic(auto, unfolding(crate::specs::Tables::prob_bytes))]
fn spell_prob(prob: u32) -> ArrayVec<u8, 3>
    requires { prob < 2 ^ 22 }
    ensures { result.items ≡ prob_bytes prob }
{
    let mut out = ArrayVec::new();
    if prob < 1 << 6 {
        out.push((4 * prob) as u8);
    } else if prob < 1 << 14 {
        out.push((4 * (prob % 64) + 1) as u8);
        out.push((prob / 64) as u8);
    } else {
        out.push((4 * (prob % 64) + 2) as u8);
        out.push((prob / 64 % 256) as u8);
        out.push((prob / 16384) as u8);
    }
    out
}

/// How many of the probabilities from symbol `from` on are 0, at most 63.
fn run_from(probs: &[u32], from: usize) -> u32
    requires { from ≤ length probs.now }
    ensures run { result ≡ min 63 (zeros_before (drop from probs.now)) }
    ensures most { result ≤ 63 }
{
    let mut run = 0;
    for s in from..probs.len() {
        if run == 63 || probs[s] != 0 {
            break;
        }
        run += 1;
    }
    run
}

/// Appends the bytes of symbol `s`, whose first `run` symbols from there on are spelled already. Gives
/// how many after it are.
fn spell_symbol(out: &mut Vec<u8>, probs: &[u32], s: usize, run: u32) -> Result<u32, Memory>
    requires small { (s : ℕ) → slice_index probs.now s < 2 ^ 22 }
    requires within { s < length probs.now }
    requires run { run ≤ 63 }
    ensures bytes { IfOk result (λ more. out.old.items ++ probs_bytes run (drop s probs.now) ≡ out.new.items ++ probs_bytes more (drop (s + 1) probs.now)) }
    ensures run { IfOk result (λ more. more ≤ 63) }
{
    if run > 0 {
        return Ok(run - 1);
    }
    if probs[s] == 0 {
        let more = run_from(probs, s + 1);
        out.push((4 * more + 3) as u8)?;
        return Ok(more);
    }
    out.extend_from_slice(spell_prob(probs[s]).as_slice())?;
    Ok(0)
}

/// The bytes of the probabilities.
fn spell_probs(alloc: Global, probs: &[u32]) -> Result<Vec<u8>, Memory>
    requires { (s : ℕ) → slice_index probs.now s < 2 ^ 22 }
    ensures { IfOk result (λ v. v.items ≡ probs_bytes 0 probs.now) }
{
    let mut out = Vec::new(alloc);
    let mut run = 0;
    for s in 0..probs.len() {
        run = spell_symbol(&mut out, probs, s, run)?;
    }
    Ok(out)
}

impl Table {
    /// Appends the table's bytes. Read at their beginning with as many slots, whatever bytes follow, they
    /// give the table. If memory runs out, `out` stays as it was.
    pub fn write(&self, alloc: Global, out: &mut Vec<u8>) -> Result<(), Memory>
        ensures bytes { OnOk result (out.new.items ≡ out.old.items ++ table_bytes self.now) }
        ensures err { OnErr result (out.new.items ≡ out.old.items) }
        ensures again { OnOk result ((bits : ℕ) → sum self.now ≡ 2 ^ bits → Spells (table_at bits) (table_bytes self.now) self.now) }
    {
        let probs = self.probs();
        let mut bytes = Vec::new(alloc);
        bytes.extend_from_slice(put_var32(self.len()).as_slice())?;
        let spelled = spell_probs(alloc, probs)?;
        bytes.extend_from_slice(spelled.as_slice())?;
        out.extend_from_slice(bytes.as_slice())?;
        Ok(())
    }
}
