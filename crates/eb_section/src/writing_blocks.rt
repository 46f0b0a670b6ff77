//! Writing blocks of bits: of start bits, and of seam bits.

ghost use Rattle.std.specs.Prelude.{◌≡◌, ◌<◌, ◌^◌, ◌++◌, OnOk, All, length, map};
ghost use Rattle.rans_binary.specs.Blocks.{IsBlockOf, block};
ghost use Rattle.eb_section.specs.Written.{blocks_bytes};
ghost use Rattle.eb_section.specs.CodedBlocks.{AreBlocks};

use drc_base::Memory;
use rans_binary::write_block;
use std::alloc::Global;

/// Appends a block of bits.
pub(crate) fn put_block(alloc: Global, out: &mut Vec<u8>, bits: &[bool]) -> Result<(), Memory>
    requires { length bits.now < 2 ^ 31 }
    ensures bytes { OnOk result (out.new.items ≡ out.old.items ++ block bits.now) }
    ensures coded { OnOk result (IsBlockOf bits.now (block bits.now)) }
{
    let coded = write_block(alloc, bits)?;
    out.extend_from_slice(coded.as_slice())?;
    Ok(())
}

/// Appends a block for each list of bits.
pub(crate) fn put_blocks(
    alloc: Global,
    out: &mut Vec<u8>,
    lists: &[Vec<bool>],
) -> Result<(), Memory>
    requires { All (λ v. length v.items < 2 ^ 31) lists.now }
    ensures bytes { OnOk result (out.new.items ≡ out.old.items ++ blocks_bytes (map (λ s. s.items) lists.now)) }
    ensures coded { OnOk result (AreBlocks (map (λ s. s.items) lists.now)) }
{
    for i in 0..lists.len() {
        put_block(alloc, out, lists[i].as_slice())?;
    }
    Ok(())
}
