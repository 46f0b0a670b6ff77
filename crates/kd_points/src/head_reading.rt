//! Reading the heads of attributes.

ghost use Rattle.std.specs.Prelude.{◌≡◌, Err, IfOk, None};
ghost use Rattle.drc_base.specs.declared.faults.Fault.{Fault as AnyFault};
ghost use Rattle.drc_base.specs.declared.faults.Refusal.TheVariants as refusal;
ghost use Rattle.attr_heads.specs.Head.{heads_fault};
ghost use Rattle.drc_bits.specs.Reading.{Reads, Gives, many_at};
ghost use Rattle.drc_bits.specs.Numbers.{number_at};
ghost use Rattle.kd_points.specs.Header.{kd_quant_at, kd_quant_of_at, kd_head_at, kd_heads_at, kd_attribute_count_at};

use attr_heads::{Head, Quant, is_float, read_bare_head, read_quant_bits};
use drc_base::{Fault, Kind, MAX_ATTRIBUTES, Refusal, Sequence};
use drc_bits::Cursor;
use std::alloc::Global;

/// How many attributes there are.
#[tactic(auto, unfolding(crate::specs::Header::kd_attribute_count_at))]
fn read_attribute_count(c: &mut Cursor<'_>) -> Result<u32, Fault>
    ensures { Reads (λ n. n) (kd_attribute_count_at c.old) c.new result }
{
    let at = c.place();
    let n = c.var32()?;
    if n == 0 {
        return Err(Fault::new(Kind::NoAttribute, at));
    }
    if n > MAX_ATTRIBUTES {
        return Err(Fault::new(Kind::AttrLimit, at));
    }
    Ok(n)
}

/// The minima of `comps` components.
fn read_minima(alloc: Global, c: &mut Cursor<'_>, comps: u8) -> Result<Vec<u32>, Refusal>
    ensures { Gives (λ v. v.items) (many_at (number_at 4) comps c.old) c.new result }
{
    let mut minima = Vec::new(alloc);
    for _number in 0..comps {
        let minimum = c.get_u32()?;
        minima.push(minimum)?;
    }
    Ok(minima)
}

/// The quantisation of `comps` components: bits, range, minima.
#[tactic(auto, unfolding(crate::specs::Header::kd_quant_at))]
fn read_quant(alloc: Global, c: &mut Cursor<'_>, comps: u8) -> Result<Quant, Refusal>
    ensures { Gives (λ q. q) (kd_quant_at comps c.old) c.new result }
{
    let bits = read_quant_bits(c)?;
    let range = c.get_u32()?;
    let minima = read_minima(alloc, c, comps)?;
    Ok(Quant {
        bits,
        range,
        min: Sequence::from_vec(minima),
    })
}

/// The quantisation of an attribute of this type; integers have none.
#[tactic(auto, unfolding(crate::specs::Header::kd_quant_of_at))]
fn read_quant_of(
    alloc: Global,
    c: &mut Cursor<'_>,
    dtype: u8,
    comps: u8,
) -> Result<Option<Quant>, Refusal>
    ensures { Gives (λ q. q) (kd_quant_of_at dtype comps c.old) c.new result }
{
    if is_float(dtype) {
        let quant = read_quant(alloc, c, comps)?;
        Ok(Some(quant))
    } else {
        Ok(None)
    }
}

/// The head of an attribute.
#[tactic(auto, unfolding(crate::specs::Header::kd_head_at))]
fn read_head(alloc: Global, c: &mut Cursor<'_>) -> Result<Head, Refusal>
    ensures { Gives (λ h. h) (kd_head_at c.old) c.new result }
{
    let head = read_bare_head(c)?;
    let quant = read_quant_of(alloc, c, head.dtype, head.comps)?;
    Ok(Head {
        quant,
        octa: None,
        ..head
    })
}

/// The heads of `n` attributes.
fn read_attributes(alloc: Global, c: &mut Cursor<'_>, n: u32) -> Result<Vec<Head>, Refusal>
    ensures { Gives (λ v. v.items) (many_at kd_head_at n c.old) c.new result }
{
    let mut heads = Vec::new(alloc);
    for _number in 0..n {
        let head = read_head(alloc, c)?;
        heads.push(head)?;
    }
    Ok(heads)
}

/// The heads of all attributes. The first fault: `NoAttribute` and `AttrLimit` at their number; then in
/// each `AttrType`, `DataType`, `Components` and `QuantBits` at the item's place; and `Short` and `Long`.
/// Those of their number come before out of memory.
#[tactic(auto, unfolding(crate::specs::Header::kd_heads_at))]
pub fn read_heads(alloc: Global, c: &mut Cursor<'_>) -> Result<Vec<Head>, Refusal>
    ensures item { Gives (λ v. v.items) (kd_heads_at c.old) c.new result }
    ensures early { (f : AnyFault) → kd_attribute_count_at c.old ≡ Err f → result ≡ Err (refusal.Fault f) }
    ensures pass { IfOk result (λ v. heads_fault v.items ≡ None) }
{
    let n = read_attribute_count(c)?;
    let heads = read_attributes(alloc, c, n)?;
    Ok(heads)
}
