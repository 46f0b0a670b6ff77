//! Writing a symbol block.

ghost use Rattle.std.specs.Prelude.{◌≡◌, ℕ, ◌+◌, ◌-◌, ◌*◌, ◌/◌, ◌%◌, ◌^◌, ◌<◌, ◌≤◌, List, ◌++◌, length, map, replicate, sum, slice_index, IfOk, MatchOption, OnOk, true, false};
ghost use Rattle.drc_bits.specs.Bits.{packed};
ghost use Rattle.drc_bits.specs.Spells.{Spells};
ghost use Rattle.rans_core.specs.Coder.{all_pushed, all_spelled};
ghost use Rattle.symbol_tables.specs.Normal.{greatest_count};
ghost use Rattle.symbol_tables.specs.Tables.{table_bytes};
ghost use Rattle.symbol_coding.specs.Block.{HasWidths, block_at, block_bytes, is_raw, lengths_of, raw_bytes, tagged_bytes, value_bits, widths};
ghost use Rattle.symbol_coding.specs.Symbols.{coded_bytes, counts_of, interval_of};

use crate::coded::precision;
use crate::costs::{cost_of_groups, cost_of_symbols, counts_in, length_of_symbols, lengths_in};
use drc_base::{MAX_VALUES, Memory};
use drc_bits::{BitWriter, put_var64};
use rans_core::Encoder;
use std::alloc::Global;
use symbol_tables::{Table, greatest_in};

/// The coded bytes of symbols, the last one pushed first.
fn code(alloc: Global, table: &Table, bits: u32, symbols: &[u32]) -> Result<Vec<u8>, Memory>
    requires low { 12 ≤ bits }
    requires high { bits ≤ 20 }
    requires whole { sum table.now ≡ 2 ^ bits }
    requires symbols { (k : ℕ) → k < length symbols.now → 0 < slice_index table.now (slice_index symbols.now k) }
    ensures { IfOk result (λ v. v.items ≡ all_spelled 4 (2 ^ bits) (map (interval_of table.now) symbols.now)) }
{
    let mut encoder = Encoder::new(alloc, bits);
    let last = symbols.len();
    for k in 0..last {
        let symbol = symbols[last - 1 - k];
        encoder.push(table.cum(symbol), table.prob(symbol))?;
    }
    encoder.finish()
}

/// Appends a table and the coded bytes of symbols behind their number.
#[tactic(auto, unfolding(crate::specs::Symbols::coded_bytes))]
pub fn write_coded(
    alloc: Global,
    out: &mut Vec<u8>,
    table: &Table,
    bits: u32,
    symbols: &[u32],
) -> Result<(), Memory>
    requires low { 12 ≤ bits }
    requires high { bits ≤ 20 }
    requires whole { sum table.now ≡ 2 ^ bits }
    requires symbols { (k : ℕ) → k < length symbols.now → 0 < slice_index table.now (slice_index symbols.now k) }
    ensures { OnOk result (out.new.items ≡ out.old.items ++ (table_bytes table.now ++ coded_bytes bits table.now symbols.now)) }
{
    table.write(alloc, out)?;
    let coded = code(alloc, table, bits, symbols)?;
    out.extend_from_slice(put_var64(coded.len() as u64).as_slice())?;
    out.extend_from_slice(coded.as_slice())?;
    Ok(())
}

/// A block whose values are symbols, which occur as often as `counts` says.
#[tactic(auto, unfolding(crate::specs::Block::raw_bytes))]
fn write_raw(alloc: Global, values: &[u32], counts: &[u32]) -> Result<Vec<u8>, Memory>
    requires some { 0 < length values.now }
    requires few { length values.now ≤ MAX_VALUES }
    requires small { greatest_count values.now < 2 ^ 18 }
    requires counts { counts.now ≡ counts_of values.now }
    ensures { IfOk result (λ v. v.items ≡ raw_bytes values.now) }
{
    let length = length_of_symbols(counts);
    let bits = precision(length);
    let table = Table::of_counts(alloc, counts, bits)?;
    let mut out = Vec::new(alloc);
    out.push(1)?;
    out.push(length as u8)?;
    write_coded(alloc, &mut out, &table, bits, values)?;
    Ok(out)
}

/// Puts the values of a group, each in `width` bits.
fn put_group(writer: &mut BitWriter, width: u32, group: &[u32]) -> Result<(), Memory>
    requires width { width ≤ 32 }
    requires fits { (k : ℕ) → k < length group.now → slice_index group.now k < 2 ^ width }
    ensures { OnOk result (writer.new ≡ writer.old ++ value_bits (replicate (length group.now) width) group.now) }
{
    for k in 0..group.len() {
        writer.put(width, group[k])?;
    }
    Ok(())
}

/// The bits of the values, each in as many as its group's bit length, in bytes.
pub fn put_values(
    alloc: Global,
    values: &[u32],
    comps: u32,
    lengths: &[u32],
) -> Result<Vec<u8>, Memory>
    requires comps { 0 < comps }
    requires len { length lengths.now * comps ≡ length values.now }
    requires widths { HasWidths (widths comps lengths.now) values.now }
    ensures { IfOk result (λ v. v.items ≡ packed (value_bits (widths comps lengths.now) values.now)) }
{
    let size = comps as usize;
    let mut writer = BitWriter::new(alloc);
    for g in 0..lengths.len() {
        let start = g * size;
        let group = &values[start..start + size];
        put_group(&mut writer, lengths[g], group)?;
    }
    Ok(writer.finish())
}

/// A block of groups of so many components with these bit lengths.
#[tactic(auto, unfolding(crate::specs::Block::tagged_bytes))]
fn write_tagged(
    alloc: Global,
    values: &[u32],
    comps: u32,
    lengths: &[u32],
) -> Result<Vec<u8>, Memory>
    requires comps { 0 < comps }
    requires divides { length values.now % comps ≡ 0 }
    requires some { 0 < length values.now }
    requires few { length values.now ≤ MAX_VALUES }
    requires lengths { lengths.now ≡ lengths_of comps values.now }
    ensures { IfOk result (λ v. v.items ≡ tagged_bytes values.now comps) }
{
    let bits = precision(5);
    let counts = counts_in(alloc, lengths, greatest_in(lengths))?;
    let table = Table::of_counts(alloc, counts.as_slice(), bits)?;
    let mut out = Vec::new(alloc);
    out.push(0)?;
    write_coded(alloc, &mut out, &table, bits, lengths)?;
    let packed = put_values(alloc, values, comps, lengths)?;
    out.extend_from_slice(packed.as_slice())?;
    Ok(out)
}

/// The counts of the values, where symbols are written: where all values are below 2^18 and symbols cost
/// no more than groups.
fn raw_counts(
    alloc: Global,
    values: &[u32],
    comps: u32,
    lengths: &[u32],
) -> Result<Option<Vec<u32>>, Memory>
    requires few { length values.now ≤ MAX_VALUES }
    requires lengths { lengths.now ≡ lengths_of comps values.now }
    ensures { IfOk result (λ counts. MatchOption counts (is_raw values.now comps ≡ false)
        (λ v. (is_raw values.now comps ≡ true) × (greatest_count values.now < 2 ^ 18) × (v.items ≡ counts_of values.now))) }
{
    let greatest = greatest_in(values);
    if greatest >= 1 << 18 {
        return Ok(None);
    }
    let counts = counts_in(alloc, values, greatest)?;
    if cost_of_symbols(values, counts.as_slice()) > cost_of_groups(values, comps, lengths) {
        return Ok(None);
    }
    Ok(Some(counts))
}

/// The block of values in groups of `comps` components, of which there is a whole number: the scheme
/// that costs less, symbols where both cost the same. Read at its beginning, whatever bytes follow, it gives
/// the values.
#[tactic(auto, unfolding(crate::specs::Block::block_bytes))]
pub fn write_symbols(alloc: Global, values: &[u32], comps: u32) -> Result<Vec<u8>, Memory>
    requires comps { 0 < comps }
    requires divides { length values.now % comps ≡ 0 }
    requires few { length values.now ≤ MAX_VALUES }
    ensures block { IfOk result (λ v. v.items ≡ block_bytes values.now comps) }
    ensures again { IfOk result (λ v. Spells (block_at (length values.now) comps) v.items values.now) }
{
    if values.len() == 0 {
        return Ok(Vec::new(alloc));
    }
    let lengths = lengths_in(alloc, values, comps)?;
    match raw_counts(alloc, values, comps, lengths.as_slice())? {
        Some(counts) => Ok(write_raw(alloc, values, counts.as_slice())?),
        None => Ok(write_tagged(alloc, values, comps, lengths.as_slice())?),
    }
}
