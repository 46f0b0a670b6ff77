//! The heads of attributes as C has them.

ghost use Rattle.std.specs.Prelude.{◌≡◌, ◌≤◌, ◌==◌, ◌&&◌, length, map, replicate, IfOk};
ghost use Rattle.attr_heads.specs.DataTypes.{is_float};
ghost use Rattle.drc_c.specs.Heads.{blank_head, head_told, heads_told, minima_told, bits_told, octahedral_bits_told, range_told, head_meant, octa_meant, quant_meant};

use crate::arrays::put_front;
use attr_heads::{Head, Quant, is_float};
use drc_base::{Memory, Sequence};
use std::alloc::Global;

/// How many components a head has room for.
const COMPONENT_ROOM: usize = 8;

/// How many heads a shape has room for.
const HEAD_ROOM: usize = 16;

/// What an attribute is, with its quantisation inline. Where the data type isn't 9, floats, or the attribute is
/// octahedral, it has none: `bits`, `range` and `min` are 0 in what is decoded, and are ignored in what is encoded.
/// Minima beyond the components are likewise 0 or ignored.
#[repr(C)]
#[derive(Clone, Copy, Debug)]
pub struct DrcHead {
    /// 0 position, 1 normal, 2 colour, 3 texture coordinate, 4 generic.
    pub usage: u8,
    /// 1 int8, 2 uint8, 3 int16, 4 uint16, 5 int32, 6 uint32 (values up to 2^31 - 1), 9 float32, quantised or octahedral.
    pub dtype: u8,
    /// Integers of one point, 1 to 8.
    pub comps: u8,
    /// The flag `normalized`, carried as it is.
    pub normalized: u8,
    /// The attribute's own id, carried as it is.
    pub id: u32,
    /// Bits of each integer of a quantised float, 1 to 30.
    pub bits: u8,
    /// Bits of the two coordinates of an octahedral attribute, 2 to 30; 0 where it isn't one.
    pub octahedral_bits: u8,
    /// 0, for what a later version may add.
    pub spare: u16,
    /// The bit pattern of the range, a 32-bit float.
    pub range: u32,
    /// The bit pattern of the minimum of each component, 32-bit floats.
    pub min: [u32; COMPONENT_ROOM],
}

// As the header has it.
const _: () = prove!(size_of::<DrcHead>() == 48);

/// A head of zeros.
#[tactic(auto, unfolding(crate::specs::Heads::blank_head))]
fn blank_head() -> DrcHead
    ensures { result ≡ blank_head }
{
    DrcHead {
        usage: 0,
        dtype: 0,
        comps: 0,
        normalized: 0,
        id: 0,
        bits: 0,
        octahedral_bits: 0,
        spare: 0,
        range: 0,
        min: [0; COMPONENT_ROOM],
    }
}

/// Heads of zeros.
pub fn blank_heads() -> [DrcHead; HEAD_ROOM]
    ensures { result ≡ replicate 16 blank_head }
{
    [blank_head(); HEAD_ROOM]
}

/// The bits of a quantisation, where there is one.
fn bits_told(quant: &Option<Quant>) -> u8
    ensures { result ≡ bits_told quant.now }
{
    match quant {
        None => 0,
        Some(quant) => quant.bits,
    }
}

/// The bits of a square, where there is one.
fn octahedral_bits_told(octa: Option<u8>) -> u8
    ensures { result ≡ octahedral_bits_told octa }
{
    match octa {
        None => 0,
        Some(bits) => bits,
    }
}

/// The range of a quantisation, where there is one.
fn range_told(quant: &Option<Quant>) -> u32
    ensures { result ≡ range_told quant.now }
{
    match quant {
        None => 0,
        Some(quant) => quant.range,
    }
}

/// The minima of a quantisation, where there is one, and zeros behind them.
#[tactic(auto, unfolding(crate::specs::Heads::minima_told))]
fn minima_told(quant: &Option<Quant>) -> [u32; COMPONENT_ROOM]
    ensures { result ≡ minima_told quant.now }
{
    let mut all = [0; COMPONENT_ROOM];
    match quant {
        None => all,
        Some(quant) => {
            put_front(&mut all, quant.min.as_slice());
            all
        }
    }
}

/// A head as C has it.
fn head_told(head: &Head) -> DrcHead
    ensures { result ≡ head_told head.now }
{
    DrcHead {
        usage: head.usage,
        dtype: head.dtype,
        comps: head.comps,
        normalized: head.normalized,
        id: head.id,
        bits: bits_told(&head.quant),
        octahedral_bits: octahedral_bits_told(head.octa),
        spare: 0,
        range: range_told(&head.quant),
        min: minima_told(&head.quant),
    }
}

/// The heads of a geometry as C has them, and blank ones behind them.
#[tactic(auto, using(crate::proofs::Filling::heads_more), unfolding(crate::specs::Heads::heads_told))]
pub fn heads_told(heads: &[Head]) -> [DrcHead; HEAD_ROOM]
    requires { length heads.now ≤ 16 }
    ensures { result ≡ heads_told heads.now }
{
    let mut all = [blank_head(); HEAD_ROOM];
    for (k, head) in heads.iter().enumerate() {
        all[k] = head_told(head);
    }
    all
}

/// The quantisation of a head of C.
fn quant_meant(alloc: Global, told: &DrcHead) -> Result<Quant, Memory>
    ensures { IfOk result (λ q. q ≡ quant_meant told.now) }
{
    let count = (told.comps as usize).min(COMPONENT_ROOM);
    let min = Vec::from_slice(alloc, &told.min[..count])?;
    Ok(Quant {
        bits: told.bits,
        range: told.range,
        min: Sequence::from_vec(min),
    })
}

/// The bits of the square of a head of C, where it has one.
pub(crate) fn octa_meant(bits: u8) -> Option<u8>
    ensures { result ≡ octa_meant bits }
{
    if bits == 0 { None } else { Some(bits) }
}

/// Whether a head of C means one with a quantisation: floats without a square have one.
pub(crate) fn is_quantised(told: &DrcHead) -> bool
    ensures { result ≡ (is_float told.now.dtype && told.now.octahedral_bits == 0) }
{
    is_float(told.dtype) && told.octahedral_bits == 0
}

/// The head that a head of C means.
fn head_meant(alloc: Global, told: &DrcHead) -> Result<Head, Memory>
    ensures { IfOk result (λ h. h ≡ head_meant told.now) }
{
    let quant = if is_quantised(told) {
        Some(quant_meant(alloc, told)?)
    } else {
        None
    };
    Ok(Head {
        usage: told.usage,
        dtype: told.dtype,
        comps: told.comps,
        normalized: told.normalized,
        id: told.id,
        quant,
        octa: octa_meant(told.octahedral_bits),
    })
}

/// The heads that heads of C mean.
pub fn heads_meant(alloc: Global, told: &[DrcHead]) -> Result<Vec<Head>, Memory>
    ensures { IfOk result (λ v. v.items ≡ map head_meant told.now) }
{
    let mut heads = Vec::new(alloc);
    for head in told {
        heads.push(head_meant(alloc, head)?)?;
    }
    Ok(heads)
}
