//! Writing what stands at the end of a decoder: the quantisations of attributes, and the squares of octahedral ones.

ghost use Rattle.std.specs.Prelude.{◌≡◌, ◌<◌, ◌^◌, ◌++◌, OnOk, All, flat_map};
ghost use Rattle.drc_bits.specs.Bits.{low_bytes};
ghost use Rattle.attr_section.specs.Written.{quant_bytes, end_bytes, ends_bytes, HasEnd, QuantFits, EndSpelled};

use attr_heads::{Head, Quant};
use drc_base::Memory;

/// Appends a number of four bytes.
pub(crate) fn put_u32(out: &mut Vec<u8>, x: u32) -> Result<(), Memory>
    ensures { OnOk result (out.new.items ≡ out.old.items ++ low_bytes 4 x) }
{
    out.extend_from_slice(&x.to_le_bytes())?;
    Ok(())
}

/// Appends minima.
fn put_minima(out: &mut Vec<u8>, minima: &[u32]) -> Result<(), Memory>
    ensures bytes { OnOk result (out.new.items ≡ out.old.items ++ flat_map (low_bytes 4) minima.now) }
    ensures fit { OnOk result (All (λ m. m < 2 ^ 32) minima.now) }
{
    for minimum in minima {
        put_u32(out, *minimum)?;
    }
    Ok(())
}

/// Appends a quantisation.
fn put_quant(out: &mut Vec<u8>, quant: &Quant) -> Result<(), Memory>
    ensures bytes { OnOk result (out.new.items ≡ out.old.items ++ quant_bytes (Some quant.now)) }
    ensures fit { OnOk result (QuantFits (Some quant.now)) }
{
    put_minima(out, quant.min.as_slice())?;
    put_u32(out, quant.range)?;
    out.push(quant.bits)?;
    Ok(())
}

/// Appends the quantisation of a head, where it has one.
fn put_quant_of(out: &mut Vec<u8>, head: &Head) -> Result<(), Memory>
    ensures bytes { OnOk result (out.new.items ≡ out.old.items ++ quant_bytes head.now.quant) }
    ensures fit { OnOk result (QuantFits head.now.quant) }
{
    match &head.quant {
        None => Ok(()),
        Some(quant) => put_quant(out, quant),
    }
}

/// Appends what stands for a head at the end of its decoder: the bits of its square, or its quantisation.
fn put_end(out: &mut Vec<u8>, head: &Head) -> Result<(), Memory>
    requires { HasEnd head.now head.now.octa }
    ensures bytes { OnOk result (out.new.items ≡ out.old.items ++ end_bytes head.now) }
    ensures again { OnOk result (EndSpelled head.now) }
{
    match head.octa {
        None => {
            put_quant_of(out, head)?;
            Ok(())
        }
        Some(bits) => {
            out.push(bits)?;
            Ok(())
        }
    }
}

/// Appends what stands for heads at the end of their decoder, each of which gets it back.
pub fn put_ends(out: &mut Vec<u8>, heads: &[Head]) -> Result<(), Memory>
    requires { All (λ h. HasEnd h h.octa) heads.now }
    ensures bytes { OnOk result (out.new.items ≡ out.old.items ++ ends_bytes heads.now) }
    ensures again { OnOk result (All EndSpelled heads.now) }
{
    for head in heads {
        put_end(out, head)?;
    }
    Ok(())
}
