//! The codings beside the one that `symbol_coding` chooses.

ghost use Rattle.std.specs.Prelude.{◌≡◌, ℕ, ◌+◌, ◌-◌, ◌*◌, ◌/◌, ◌%◌, ◌^◌, ◌<◌, ◌≤◌, length, slice_index, IfOk};
ghost use Rattle.symbol_tables.specs.Normal.{greatest_count, used_of};
ghost use Rattle.symbol_coding.specs.Block.{HasWidths, raw_length, widths};
ghost use Rattle.symbol_coding.specs.Symbols.{counts_of};
ghost use Rattle.shortest_blocks.specs.Joined.{digits_of_groups, joined_lengths};
ghost use Rattle.shortest_blocks.specs.Shortest.{joined_bytes, raw_of, tagged_of};

use crate::joining::{digits_in_groups, join};
use drc_base::{MAX_VALUES, Memory};
use std::alloc::Global;
use symbol_coding::{counts_in, precision, put_values, write_coded};
use symbol_tables::{Table, greatest_in};

/// The block whose values are symbols of this bit length, which occur as often as `counts` says.
#[tactic(auto, unfolding(crate::specs::Shortest::raw_of))]
pub fn write_raw(
    alloc: Global,
    values: &[u32],
    counts: &[u32],
    bit_length: u32,
) -> Result<Vec<u8>, Memory>
    requires some { 0 < length values.now }
    requires few { length values.now ≤ MAX_VALUES }
    requires small { greatest_count values.now < 2 ^ 18 }
    requires counts { counts.now ≡ counts_of values.now }
    requires enough { raw_length counts.now ≤ bit_length }
    requires most { bit_length ≤ 18 }
    ensures { IfOk result (λ v. v.items ≡ raw_of bit_length values.now) }
{
    let bits = precision(bit_length);
    let table = Table::of_counts(alloc, counts, bits)?;
    let mut out = Vec::new(alloc);
    out.push(1)?;
    out.push(bit_length as u8)?;
    write_coded(alloc, &mut out, &table, bits, values)?;
    Ok(out)
}

/// The block of groups of so many components with these bit lengths.
#[tactic(auto, unfolding(crate::specs::Shortest::tagged_of))]
fn write_tagged(
    alloc: Global,
    values: &[u32],
    comps: u32,
    lengths: &[u32],
) -> Result<Vec<u8>, Memory>
    requires comps { 0 < comps }
    requires some { 0 < length lengths.now }
    requires few { length lengths.now ≤ MAX_VALUES }
    requires most { (k : ℕ) → slice_index lengths.now k ≤ 32 }
    requires len { length lengths.now * comps ≡ length values.now }
    requires widths { HasWidths (widths comps lengths.now) values.now }
    ensures { IfOk result (λ v. v.items ≡ tagged_of lengths.now comps values.now) }
{
    let bits = precision(5);
    let counts = counts_in(alloc, lengths, greatest_in(lengths))?;
    let table = Table::of_counts(alloc, counts.as_slice(), bits)?;
    let mut out = Vec::new(alloc);
    out.push(0)?;
    write_coded(alloc, &mut out, &table, bits, lengths)?;
    let packed = put_values(alloc, values, comps, lengths)?;
    out.extend_from_slice(packed.as_slice())?;
    Ok(out)
}

/// The block of groups of so many components with the joined bit lengths.
#[tactic(auto, unfolding(crate::specs::Shortest::joined_bytes))]
pub fn write_joined(alloc: Global, values: &[u32], comps: u32) -> Result<Vec<u8>, Memory>
    requires comps { 0 < comps }
    requires divides { length values.now % comps ≡ 0 }
    requires some { 0 < length values.now }
    requires few { length values.now ≤ MAX_VALUES }
    ensures { IfOk result (λ v. v.items ≡ joined_bytes values.now comps) }
{
    let lengths = digits_in_groups(alloc, values, comps)?;
    let joined = join(alloc, lengths.as_slice(), comps)?;
    Ok(write_tagged(alloc, values, comps, joined.as_slice())?)
}
