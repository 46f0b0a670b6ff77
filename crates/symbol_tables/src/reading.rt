//! Reading a table.

ghost use Rattle.std.specs.Prelude.{◌≡◌, ℕ, ◌+◌, ◌-◌, ◌*◌, ◌/◌, ◌%◌, ◌^◌, ◌<◌, ◌≤◌, ◌==◌, length, sum, IfOk, OnErr, Ok, Err, if◌then◌else◌};
ghost use Rattle.drc_base.specs.declared.limits.TheConstants.{MAX_TABLE_SYMBOLS as most_symbols};
ghost use Rattle.drc_base.specs.declared.faults.Fault.{Fault as TheFault};
ghost use Rattle.drc_bits.specs.Reading.{Gives, Item, Reading, Reads, many_at};
ghost use Rattle.drc_bits.specs.Numbers.{little_endian, number_at};
ghost use Rattle.symbol_tables.specs.Tables.{count_at, long_at, prob_at, probs_at, run_at, table_at};

use crate::counts::slots_for;
use crate::table::Table;
use drc_base::{Fault, Kind, MAX_TABLE_SYMBOLS, Refusal};
use drc_bits::Cursor;
use std::alloc::Global;

/// How many symbols a table has: `TableLimit` above the limit, `EmptyTable` at 0.
fn read_count(c: &mut Cursor<'_>) -> Result<u32, Fault>
    ensures count { Reads (λ n. n) (count_at c.old) c.new result }
    ensures some { IfOk result (λ n. 0 < n) }
    ensures few { IfOk result (λ n. n ≤ most_symbols) }
{
    let limit = c.fault(Kind::TableLimit);
    let empty = c.fault(Kind::EmptyTable);
    let count = c.var32()?;
    if count > MAX_TABLE_SYMBOLS {
        return Err(limit);
    }
    if count == 0 {
        return Err(empty);
    }
    Ok(count)
}

/// The bytes above the low six bits of a probability, at most two, joined to these.
#[tactic(auto, unfolding(drc_bits::specs::Reading::many_at))]
fn read_long(c: &mut Cursor<'_>, low: u32, more: u32) -> Result<(u32, u32), Fault>
    requires low { low < 64 }
    requires more { more ≤ 2 }
    ensures long { Reads (λ x. (x.0, x.1)) (long_at low more c.old) c.new result }
    ensures small { IfOk result (λ x. x.0 < 2 ^ 22) }
{
    if more == 0 {
        return Ok((low, 0));
    }
    let second = u32::from(c.get_u8()?);
    if more == 1 {
        return Ok((low + 64 * second, 0));
    }
    let third = u32::from(c.get_u8()?);
    Ok((low + 64 * (second + 256 * third), 0))
}

/// A symbol's probability, and how many symbols after it are in its run: of a run that goes on, or an
/// item of its own. `behind` symbols follow.
fn read_prob(c: &mut Cursor<'_>, behind: u32, run: u32) -> Result<(u32, u32), Fault>
    ensures prob { Reads (λ x. (x.0, x.1)) (prob_at behind run c.old) c.new result }
    ensures small { IfOk result (λ x. x.0 < 2 ^ 22) }
{
    if run > 0 {
        return Ok((0, run - 1));
    }
    let passed = c.fault(Kind::Run);
    let byte = u32::from(c.get_u8()?);
    if byte % 4 == 3 {
        if byte / 4 > behind {
            return Err(passed);
        }
        return Ok((0, byte / 4));
    }
    read_long(c, byte / 4, byte % 4)
}

/// The probabilities of `count` symbols.
fn read_probs(alloc: Global, c: &mut Cursor<'_>, count: u32) -> Result<Vec<u32>, Refusal>
    ensures probs { Gives (λ v. v.items) (probs_at count 0 c.old) c.new result }
    ensures len { IfOk result (λ v. length v.items ≡ count) }
{
    let mut probs = Vec::new(alloc);
    let mut run = 0;
    for s in 0..count {
        let (prob, more) = read_prob(c, count - 1 - s, run)?;
        probs.push(prob)?;
        run = more;
    }
    Ok(probs)
}

/// The sum of probabilities.
fn total_of(probs: &[u32]) -> u64
    requires { length probs.now ≤ most_symbols }
    ensures { result ≡ sum probs.now }
{
    let mut total = 0u64;
    for prob in probs {
        total += u64::from(*prob);
    }
    total
}

impl Table {
    /// Reads a table with 2 to the power `bits` slots: `Short` and `Long` of its items, `TableLimit` and
    /// `EmptyTable` of its number of symbols, which are never answered when out of memory, `Run` at a byte
    /// whose run passes the end, and `Sum` at the number of symbols where the probabilities don't fill
    /// the slots. After a refusal the cursor is where it was.
    #[tactic(auto, unfolding(crate::specs::Tables::table_at))]
    pub fn read(alloc: Global, c: &mut Cursor<'_>, bits: u32) -> Result<Table, Refusal>
        requires low { 12 ≤ bits }
        requires high { bits ≤ 20 }
        ensures table { Gives (λ t. t) (table_at bits c.old) c.new result }
        ensures whole { IfOk result (λ t. sum t ≡ 2 ^ bits) }
        ensures len { IfOk result (λ t. (0 < length t) × (length t ≤ most_symbols)) }
        ensures unchanged { OnErr result (c.new ≡ c.old) }
        // Faults of the number of symbols come before out of memory.
        ensures early { (f : TheFault) → count_at c.old ≡ Err f → result ≡ Err (Refusal.Fault f) }
    {
        let not_whole = c.fault(Kind::Sum);
        let mut ahead = c.copy();
        let count = read_count(&mut ahead)?;
        let probs = read_probs(alloc, &mut ahead, count)?;
        if total_of(probs.as_slice()) != u64::from(slots_for(bits)) {
            return Err(Refusal::Fault(not_whole));
        }
        let table = Table::build(alloc, probs)?;
        *c = ahead;
        Ok(table)
    }
}
