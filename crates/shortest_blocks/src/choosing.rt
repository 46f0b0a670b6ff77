//! The choice between the codings of a block.

ghost use Rattle.std.specs.Prelude.{◌≡◌, ℕ, ◌%◌, ◌^◌, ◌<◌, ◌≤◌, [], ◌∷◌, length, IfOk};
ghost use Rattle.std.specs.List.{best_of};
ghost use Rattle.drc_bits.specs.Spells.{Spells};
ghost use Rattle.symbol_coding.specs.Block.{block_at, block_bytes};
ghost use Rattle.shortest_blocks.specs.Shortest.{is_shorter, raw_codings, shortest_bytes};

use crate::codings::{write_joined, write_raw};
use drc_base::{MAX_VALUES, Memory};
use std::alloc::Global;
use symbol_coding::{counts_in, length_of_symbols, write_symbols};
use symbol_tables::greatest_in;

/// The shorter of two blocks, the first where they are of equal length.
fn shorter(first: Vec<u8>, other: Vec<u8>) -> Vec<u8>
    ensures { result.items ≡ best_of is_shorter first.items (other.items ∷ []) }
{
    if other.len() < first.len() {
        other
    } else {
        first
    }
}

/// The first of the shortest of a block and those whose values are symbols, where all values are below 2^18.
#[tactic(auto, unfolding(crate::specs::Shortest::raw_codings))]
fn with_raw(alloc: Global, values: &[u32], block: Vec<u8>) -> Result<Vec<u8>, Memory>
    requires some { 0 < length values.now }
    requires few { length values.now ≤ MAX_VALUES }
    ensures { IfOk result (λ v. v.items ≡ best_of is_shorter block.items (raw_codings values.now)) }
{
    let greatest = greatest_in(values);
    if greatest >= 1 << 18 {
        return Ok(block);
    }
    let counts = counts_in(alloc, values, greatest)?;
    let length = length_of_symbols(counts.as_slice());
    let raw = write_raw(alloc, values, counts.as_slice(), length)?;
    let block = shorter(block, raw);
    let finer = write_raw(alloc, values, counts.as_slice(), (length + 2).min(18))?;
    Ok(shorter(block, finer))
}

/// The first of the shortest codings of a block of values in groups of `comps` components, of which there is a whole number: the
/// block that `write_symbols` writes; groups with joined bit lengths; and, where all values are below 2^18, values as symbols of the
/// bit length of how many are used, and of two more. Read at its beginning, whatever bytes follow, it gives the values. It takes
/// about four times as long as `write_symbols`.
#[tactic(auto, unfolding(crate::specs::Shortest::shortest_bytes))]
pub fn write_shortest(alloc: Global, values: &[u32], comps: u32) -> Result<Vec<u8>, Memory>
    requires comps { 0 < comps }
    requires divides { length values.now % comps ≡ 0 }
    requires few { length values.now ≤ MAX_VALUES }
    ensures block { IfOk result (λ v. v.items ≡ shortest_bytes values.now comps) }
    ensures again { IfOk result (λ v. Spells (block_at (length values.now) comps) v.items values.now) }
    ensures most { IfOk result (λ v. length v.items ≤ length (block_bytes values.now comps)) }
{
    if values.len() == 0 {
        return Ok(Vec::new(alloc));
    }
    let block = write_symbols(alloc, values, comps)?;
    let joined = write_joined(alloc, values, comps)?;
    Ok(with_raw(alloc, values, shorter(block, joined))?)
}
