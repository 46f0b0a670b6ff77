//! Reading what every stream says of an attribute.

ghost use Rattle.std.specs.Prelude.{◌≡◌, ◌<◌, IfOk};
ghost use Rattle.drc_bits.specs.Reading.{Reads};
ghost use Rattle.attr_heads.specs.HeadItems.{head_at, quant_bits_at, square_bits_at};

use crate::data_types::is_type;
use crate::heads::{Head, has_comps};
use crate::octahedra::are_octahedral_bits;
use crate::quants::are_quant_bits;
use crate::usages::is_usage;
use drc_base::{Fault, Kind};
use drc_bits::Cursor;

/// The head of an attribute as it stands in a stream: its coding, and what its integers stand for, are read elsewhere. The first fault: `AttrType`, `DataType` or `Components` at the
/// item's place, or that of an item that isn't whole.
#[tactic(auto, unfolding(crate::specs::HeadItems::head_at))]
pub fn read_bare_head(c: &mut Cursor<'_>) -> Result<Head, Fault>
    ensures item { Reads (λ h. h) (head_at c.old) c.new result }
    ensures some { IfOk result (λ h. 0 < h.comps) }
{
    let at = c.place();
    let usage = c.get_u8()?;
    if !is_usage(usage) {
        return Err(Fault::new(Kind::AttrType, at));
    }
    let at = c.place();
    let dtype = c.get_u8()?;
    if !is_type(dtype) {
        return Err(Fault::new(Kind::DataType, at));
    }
    let at = c.place();
    let comps = c.get_u8()?;
    if !has_comps(comps) {
        return Err(Fault::new(Kind::Components, at));
    }
    let normalized = c.get_u8()?;
    let id = c.var32()?;
    Ok(Head {
        usage,
        dtype,
        comps,
        normalized,
        id,
        quant: None,
        octa: None,
    })
}

/// How many bits quantised integers have; `QuantBits` at its place where they can't have so many.
pub fn read_quant_bits(c: &mut Cursor<'_>) -> Result<u8, Fault>
    ensures { Reads (λ bits. bits) (quant_bits_at c.old) c.new result }
{
    let at = c.place();
    let bits = c.get_u8()?;
    if !are_quant_bits(bits) {
        return Err(Fault::new(Kind::QuantBits, at));
    }
    Ok(bits)
}

/// How many bits the coordinates in the square of an octahedral attribute have; `QuantBits` at its place where they can't have so many.
pub fn read_square_bits(c: &mut Cursor<'_>) -> Result<u8, Fault>
    ensures { Reads (λ bits. bits) (square_bits_at c.old) c.new result }
{
    let at = c.place();
    let bits = c.get_u8()?;
    if !are_octahedral_bits(bits) {
        return Err(Fault::new(Kind::QuantBits, at));
    }
    Ok(bits)
}
