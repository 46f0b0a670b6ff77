//! What stands at the end of a decoder: the quantisations of attributes, and the squares of octahedral ones.

ghost use Rattle.std.specs.Prelude.{◌≡◌, ◌≤◌, IfOk, None, length};
ghost use Rattle.drc_bits.specs.Reading.{Reads, Gives, many_at};
ghost use Rattle.drc_bits.specs.Numbers.{number_at};
ghost use Rattle.attr_section.specs.Attributes.{quant_at, quant_of_at, quantised_at, squared_at, completed_at, quants_at, comps_of};

use crate::bounded::are_in_bounds;
use crate::values::Values;
use attr_heads::{Head, Quant, is_float, read_quant_bits, read_square_bits, square_bounds};
use drc_base::{Fault, Kind, Refusal, Sequence};
use drc_bits::Cursor;
use std::alloc::Global;

/// The minima of `comps` components.
fn read_minima(alloc: Global, c: &mut Cursor<'_>, comps: u8) -> Result<Vec<u32>, Refusal>
    ensures { Gives (λ v. v.items) (many_at (number_at 4) comps c.old) c.new result }
{
    let mut minima = Vec::new(alloc);
    for _number in 0..comps {
        let minimum = c.get_u32()?;
        minima.push(minimum)?;
    }
    Ok(minima)
}

/// The quantisation of `comps` components.
#[tactic(auto, unfolding(crate::specs::Attributes::quant_at))]
fn read_quant(alloc: Global, c: &mut Cursor<'_>, comps: u8) -> Result<Quant, Refusal>
    ensures { Gives (λ q. q) (quant_at comps c.old) c.new result }
{
    let minima = read_minima(alloc, c, comps)?;
    let range = c.get_u32()?;
    let bits = read_quant_bits(c)?;
    Ok(Quant {
        bits,
        range,
        min: Sequence::from_vec(minima),
    })
}

/// The quantisation of a head; integers have none.
#[tactic(auto, unfolding(crate::specs::Attributes::quant_of_at))]
fn read_quant_of(alloc: Global, c: &mut Cursor<'_>, head: &Head) -> Result<Option<Quant>, Refusal>
    ensures { Gives (λ q. q) (quant_of_at head.now c.old) c.new result }
{
    if is_float(head.dtype) {
        let quant = read_quant(alloc, c, head.comps)?;
        Ok(Some(quant))
    } else {
        Ok(None)
    }
}

/// A head with this at its decoder's end.
fn completed(head: &Head, quant: Option<Quant>, octa: Option<u8>) -> Head
    ensures { result ≡ record head.now { quant = quant; octa = octa } }
{
    Head {
        usage: head.usage,
        dtype: head.dtype,
        comps: head.comps,
        normalized: head.normalized,
        id: head.id,
        quant,
        octa,
    }
}

/// A head without a square, with its quantisation.
#[tactic(auto, unfolding(crate::specs::Attributes::quantised_at))]
fn read_quantised(alloc: Global, c: &mut Cursor<'_>, head: &Head) -> Result<Head, Refusal>
    requires { head.now.octa ≡ None }
    ensures item { Gives (λ h. h) (quantised_at head.now c.old) c.new result }
    ensures comps { IfOk result (λ h. h.comps ≡ head.now.comps) }
{
    let quant = read_quant_of(alloc, c, head)?;
    Ok(completed(head, quant, None))
}

/// An octahedral head with the bits of its square, in which its values lie; `ValueRange` at their prediction where they don't.
#[tactic(auto, unfolding(crate::specs::Attributes::squared_at))]
fn read_squared(c: &mut Cursor<'_>, head: &Head, values: &Values) -> Result<Head, Fault>
    ensures item { Reads (λ h. h) (squared_at head.now values.now c.old) c.new result }
    ensures comps { IfOk result (λ h. h.comps ≡ head.now.comps) }
{
    let bits = read_square_bits(c)?;
    if !are_in_bounds(square_bounds(bits), values.values.as_slice()) {
        return Err(Fault::new(Kind::ValueRange, values.at));
    }
    Ok(completed(head, None, Some(bits)))
}

/// A head with what stands for it at its decoder's end.
#[tactic(auto, unfolding(crate::specs::Attributes::completed_at))]
fn read_completed(
    alloc: Global,
    c: &mut Cursor<'_>,
    head: &Head,
    values: &Values,
) -> Result<Head, Refusal>
    ensures item { Gives (λ h. h) (completed_at head.now values.now c.old) c.new result }
    ensures comps { IfOk result (λ h. h.comps ≡ head.now.comps) }
{
    if head.octa.is_some() {
        let head = read_squared(c, head, values)?;
        Ok(head)
    } else {
        read_quantised(alloc, c, head)
    }
}

/// Heads, each with what stands for it at the decoder's end; `values` are those of each.
pub fn read_quants(
    alloc: Global,
    c: &mut Cursor<'_>,
    heads: &[Head],
    values: &[Values],
) -> Result<Vec<Head>, Refusal>
    requires same { length values.now ≡ length heads.now }
    ensures items { Gives (λ v. v.items) (quants_at heads.now values.now c.old) c.new result }
    ensures comps { IfOk result (λ v. comps_of v.items ≡ comps_of heads.now) }
{
    let mut quantised = Vec::new(alloc);
    for (k, head) in heads.iter().enumerate() {
        let new = read_completed(alloc, c, head, &values[k])?;
        quantised.push(new)?;
    }
    Ok(quantised)
}
