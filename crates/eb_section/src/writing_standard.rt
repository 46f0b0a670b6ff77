//! Writing what lies behind the events under the standard traversal.

ghost use Rattle.std.specs.Prelude.{◌≡◌, ◌<◌, ◌^◌, ◌++◌, OnOk, All, length, map};
ghost use Rattle.rans_binary.specs.Blocks.{IsBlockOf, block};
ghost use Rattle.eb_section.specs.Written.{standard_bytes, standard_behind_bytes};
ghost use Rattle.eb_section.specs.CodedBlocks.{AreBlocks};

use crate::writing_blocks::{put_block, put_blocks};
use corner_table::Symbol;
use drc_base::Memory;
use drc_bits::put_var64;
use eb_standard::pack;
use eb_trace::Traced;
use std::alloc::Global;

/// Appends the symbols, the start bits and the seam bits.
#[tactic(auto, unfolding(crate::specs::Written::standard_behind_bytes))]
pub(crate) fn put_standard(
    alloc: Global,
    out: &mut Vec<u8>,
    t: &Traced,
    seams: &[Vec<bool>],
) -> Result<(), Memory>
    requires starts { length t.now.starts < 2 ^ 31 }
    requires short { All (λ v. length v.items < 2 ^ 31) seams.now }
    ensures bytes { OnOk result (out.new.items ≡ out.old.items ++ standard_behind_bytes t.now (map (λ s. s.items) seams.now)) }
    ensures starts { OnOk result (IsBlockOf t.now.starts (block t.now.starts)) }
    ensures seams { OnOk result (AreBlocks (map (λ s. s.items) seams.now)) }
{
    put_symbols(alloc, out, t.symbols.as_slice())?;
    put_block(alloc, out, t.starts.as_slice())?;
    put_blocks(alloc, out, seams)?;
    Ok(())
}

/// Appends the symbols of the standard traversal: how many bytes their bits have, and those.
#[tactic(auto, unfolding(crate::specs::Written::standard_bytes))]
fn put_symbols(alloc: Global, out: &mut Vec<u8>, symbols: &[Symbol]) -> Result<(), Memory>
    ensures { OnOk result (out.new.items ≡ out.old.items ++ standard_bytes symbols.now) }
{
    let coded = pack(alloc, symbols)?;
    out.extend_from_slice(&put_var64(coded.len() as u64))?;
    out.extend_from_slice(coded.as_slice())?;
    Ok(())
}
