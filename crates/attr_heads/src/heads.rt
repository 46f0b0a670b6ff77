//! The heads of attributes: what the integers of each are.

ghost use Rattle.std.specs.Prelude.{◌≡◌, ◌<◌, ◌≤◌, None, IsTrue, IsOk, IfOk, OnOk, length};
ghost use Rattle.attr_heads.specs.FirstFault.{Tests};
ghost use Rattle.attr_heads.specs.Quants.{has_minima, has_bits};
ghost use Rattle.attr_heads.specs.Octahedra.{has_coordinates, has_square_bits};
ghost use Rattle.attr_heads.specs.Bounds.{bounds_of};
ghost use Rattle.attr_heads.specs.Head.{has_type, has_comps, head_fault, each_fault, heads_fault, width_of};

use crate::bounds::Bounds;
use crate::data_types::{is_float, is_integer};
use crate::octahedra::{OCTAHEDRAL_INTEGERS, are_octahedral_bits, square_bounds};
use crate::quants::{Quant, are_quant_bits};
use crate::usages::is_usage;
use drc_base::{Fault, Kind, MAX_ATTRIBUTES, MAX_COMPONENTS, Memory};
use std::alloc::Global;

/// What an attribute is (Draco Bitstream Specification 2.2, attribute decoders).
#[derive(Debug, Drop)]
pub struct Head {
    /// 0 position, 1 normal, 2 colour, 3 texture coordinate, 4 generic.
    pub usage: u8,
    /// 1 int8, 2 uint8, 3 int16, 4 uint16, 5 int32, 6 uint32 (values up to 2^31 - 1), 9 float32,
    /// quantised or octahedral.
    pub dtype: u8,
    /// Integers of one point, 1 to 8.
    pub comps: u8,
    /// The flag `normalized`, carried as it is.
    pub normalized: u8,
    /// The attribute's own id, carried as it is.
    pub id: u32,
    /// The quantisation of floats; where `dtype` is 9 there is either one or a square, and else neither.
    pub quant: Option<Quant>,
    /// The bits, 2 to 30, of the two coordinates in the square that unit vectors stand for, where `dtype` is 9 and the attribute is
    /// octahedral (0 while a stream's decoder hasn't been read to its end).
    pub octa: Option<u8>,
}

impl Head {
    /// An equal head. Without a quantisation it takes no memory, and the answer is `Ok`.
    pub fn copy(&self, alloc: Global) -> Result<Head, Memory>
        ensures same { IfOk result (λ h. h ≡ self.now) }
        ensures plain { self.now.quant ≡ None → IsOk result }
    {
        let quant = match &self.quant {
            None => None,
            Some(quant) => Some(quant.copy(alloc)?),
        };
        Ok(Head {
            usage: self.usage,
            dtype: self.dtype,
            comps: self.comps,
            normalized: self.normalized,
            id: self.id,
            quant,
            octa: self.octa,
        })
    }

    /// Whether the attribute has a quantisation or a square exactly as its data type asks.
    pub fn has_type(&self) -> bool
        ensures { result ≡ has_type self.now.dtype self.now.quant self.now.octa }
    {
        match (self.quant.is_some(), self.octa.is_some()) {
            (false, false) => is_integer(self.dtype),
            (false, true) => is_float(self.dtype),
            (true, false) => is_float(self.dtype),
            (true, true) => false,
        }
    }

    /// The bounds of the attribute's integers.
    pub fn bounds(&self) -> Bounds
        requires { IsTrue (has_square_bits self.now.octa) }
        ensures { result ≡ bounds_of self.now }
    {
        match self.octa {
            None => Bounds::of_type(self.dtype),
            Some(bits) => square_bounds(bits),
        }
    }

    fn has_coordinates(&self) -> bool
        ensures { result ≡ has_coordinates self.now.comps self.now.octa }
    {
        match self.octa {
            None => true,
            Some(_) => self.comps == OCTAHEDRAL_INTEGERS,
        }
    }

    fn has_square_bits(&self) -> bool
        ensures { result ≡ has_square_bits self.now.octa }
    {
        match self.octa {
            None => true,
            Some(bits) => are_octahedral_bits(bits),
        }
    }

    fn has_minima(&self) -> bool
        ensures { result ≡ has_minima self.now.comps self.now.quant }
    {
        match &self.quant {
            None => true,
            Some(quant) => quant.min.len() == self.comps as usize,
        }
    }

    fn has_bits(&self) -> bool
        ensures { result ≡ has_bits self.now.quant }
    {
        match &self.quant {
            None => true,
            Some(quant) => are_quant_bits(quant.bits),
        }
    }
}

/// Whether a point may have so many integers of one attribute.
pub fn has_comps(comps: u8) -> bool
    ensures { result ≡ has_comps comps }
{
    1 <= comps && comps as u32 <= MAX_COMPONENTS
}

/// Equal heads.
pub fn copies_of(alloc: Global, heads: &[Head]) -> Result<Vec<Head>, Memory>
    ensures { IfOk result (λ v. v.items ≡ heads.now) }
{
    let mut copies = Vec::new(alloc);
    for head in heads {
        copies.push(head.copy(alloc)?)?;
    }
    Ok(copies)
}

/// The first fault of head `k`.
fn test_head(k: usize, head: &Head) -> Result<(), Fault>
    ensures tested { Tests (head_fault k head.now) result }
    ensures comps { OnOk result ((1 ≤ head.now.comps) × (head.now.comps ≤ 8)) }
{
    let at = k as u64;
    if !is_usage(head.usage) {
        return Err(Fault::new(Kind::AttrType, at));
    }
    if !head.has_type() {
        return Err(Fault::new(Kind::DataType, at));
    }
    if !has_comps(head.comps) || !head.has_minima() || !head.has_coordinates() {
        return Err(Fault::new(Kind::Components, at));
    }
    if !head.has_bits() || !head.has_square_bits() {
        return Err(Fault::new(Kind::QuantBits, at));
    }
    Ok(())
}

/// The first fault of each head in turn; without one, the width of a row.
fn test_each_head(heads: &[Head]) -> Result<u32, Fault>
    requires { length heads.now ≤ 16 }
    ensures tested { Tests (each_fault 0 heads.now) result }
    ensures width { IfOk result (λ width. width ≡ width_of heads.now) }
    ensures bounds { IfOk result (λ width. (length heads.now ≤ width) × (width ≤ 128)) }
{
    let mut width: u32 = 0;
    for (k, head) in heads.iter().enumerate() {
        test_head(k, head)?;
        width += head.comps as u32;
    }
    Ok(width)
}

/// How many integers a row of these heads has.
pub fn row_width(heads: &[Head]) -> u32
    requires { width_of heads.now ≤ 128 }
    ensures { result ≡ width_of heads.now }
{
    let mut width: u32 = 0;
    for head in heads {
        width += head.comps as u32;
    }
    width
}

/// The first fault of the heads of a geometry: NoAttribute and AttrLimit at their number, then
/// AttrType, DataType, Components and QuantBits at the first head that has one, in this order.
/// Without a fault, the width of a row.
#[tactic(auto, unfolding(crate::specs::Head::heads_fault))]
pub fn test_heads(heads: &[Head]) -> Result<u32, Fault>
    ensures tested { Tests (heads_fault heads.now) result }
    ensures width { IfOk result (λ width. width ≡ width_of heads.now) }
    ensures bounds { IfOk result (λ width. (0 < width) × (width ≤ 128)) }
{
    let at = heads.len() as u64;
    if heads.is_empty() {
        return Err(Fault::new(Kind::NoAttribute, at));
    }
    if at > MAX_ATTRIBUTES as u64 {
        return Err(Fault::new(Kind::AttrLimit, at));
    }
    test_each_head(heads)
}
