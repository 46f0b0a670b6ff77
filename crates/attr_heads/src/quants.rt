//! How integers stand for floats.

ghost use Rattle.std.specs.Prelude.{◌≡◌, IfOk};
ghost use Rattle.attr_heads.specs.Quants.{are_quant_bits};

use drc_base::{Memory, Sequence};
use std::alloc::Global;

/// The most bits of a quantised integer.
pub const MAX_QUANT_BITS: u8 = 30;

/// How the integers of an attribute stand for floats: value i of a component with minimum m is
/// m + i * range / (2^bits - 1). The range and the minima are the bit patterns of 32-bit floats,
/// which are carried and never computed with (Draco Bitstream Specification 2.2, quantization
/// data).
#[derive(Debug, Drop)]
pub struct Quant {
    /// Bits of each integer, 1 to 30.
    pub bits: u8,
    /// The bit pattern of the range.
    pub range: u32,
    /// The bit pattern of the minimum of each component.
    pub min: Sequence<u32>,
}

impl Quant {
    /// An equal quantisation.
    pub fn copy(&self, alloc: Global) -> Result<Quant, Memory>
        ensures { IfOk result (λ q. q ≡ self.now) }
    {
        let min = Vec::from_slice(alloc, self.min.as_slice())?;
        Ok(Quant {
            bits: self.bits,
            range: self.range,
            min: Sequence::from_vec(min),
        })
    }
}

/// Whether quantised integers may have so many bits.
pub fn are_quant_bits(bits: u8) -> bool
    ensures { result ≡ are_quant_bits bits }
{
    1 <= bits && bits <= MAX_QUANT_BITS
}
