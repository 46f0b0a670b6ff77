//! Writing the flags of predictions.

ghost use Rattle.std.specs.Prelude.{◌≡◌, ◌<◌, ◌^◌, ◌++◌, OnOk, All, length, flat_map};
ghost use Rattle.drc_bits.specs.Spells.{Spells};
ghost use Rattle.rans_binary.specs.Blocks.{block, IsBlockOf};
ghost use Rattle.attr_section.specs.Values.{flag_bits_at};
ghost use Rattle.attr_section.specs.WrittenParts.{flag_bits_bytes, flags_bytes, FlagsSpelled};

use drc_base::{Memory, Sequence};
use drc_bits::put_var32;
use rans_binary::write_block;
use std::alloc::Global;

/// Appends the block of bits.
pub(crate) fn put_bits(alloc: Global, out: &mut Vec<u8>, bits: &[bool]) -> Result<(), Memory>
    requires { length bits.now < 2 ^ 31 }
    ensures bytes { OnOk result (out.new.items ≡ out.old.items ++ block bits.now) }
    ensures again { OnOk result (IsBlockOf bits.now (block bits.now)) }
{
    let block = write_block(alloc, bits)?;
    out.extend_from_slice(&block)?;
    Ok(())
}

/// Appends the block of flags, where there are some.
fn put_flag_bits(alloc: Global, out: &mut Vec<u8>, flags: &[bool]) -> Result<(), Memory>
    requires { length flags.now < 2 ^ 31 }
    ensures bytes { OnOk result (out.new.items ≡ out.old.items ++ flag_bits_bytes flags.now) }
    ensures again { OnOk result (Spells (flag_bits_at (length flags.now)) (flag_bits_bytes flags.now) flags.now) }
{
    if flags.is_empty() {
        return Ok(());
    }
    let block = write_block(alloc, flags)?;
    out.extend_from_slice(&block)?;
    Ok(())
}

/// Appends a list of flags.
#[tactic(auto, unfolding(crate::specs::WrittenParts::flags_bytes))]
fn put_flags(alloc: Global, out: &mut Vec<u8>, flags: &[bool]) -> Result<(), Memory>
    requires { length flags.now < 2 ^ 31 }
    ensures bytes { OnOk result (out.new.items ≡ out.old.items ++ flags_bytes flags.now) }
    ensures again { OnOk result (FlagsSpelled flags.now) }
{
    out.extend_from_slice(&put_var32(flags.len() as u32))?;
    put_flag_bits(alloc, out, flags)?;
    Ok(())
}

/// Appends lists of flags, one after another.
pub fn put_flag_lists(
    alloc: Global,
    out: &mut Vec<u8>,
    lists: &[Sequence<bool>],
) -> Result<(), Memory>
    requires { All (λ flags. length flags < 2 ^ 31) lists.now }
    ensures bytes { OnOk result (out.new.items ≡ out.old.items ++ flat_map flags_bytes lists.now) }
    ensures again { OnOk result (All FlagsSpelled lists.now) }
{
    for flags in lists {
        put_flags(alloc, out, flags.as_slice())?;
    }
    Ok(())
}
