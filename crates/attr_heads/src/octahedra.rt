//! The squares of octahedral attributes.

ghost use Rattle.std.specs.Prelude.{◌≡◌, ◌≤◌, ◌<◌, ◌-◌, ◌^◌, pos, IsTrue};
ghost use Rattle.attr_heads.specs.Octahedra.{are_octahedral_bits, square_bounds};

use crate::bounds::Bounds;

/// The components that the head of an octahedral attribute says in a stream: those of a vector (Draco Bitstream Specification 2.2,
/// section "Prediction Octahedron Decoder").
pub const OCTAHEDRAL_COMPONENTS: u8 = 3;

/// The integers of a point in an octahedral attribute: the coordinates in the square that the octahedron is unfolded into.
pub const OCTAHEDRAL_INTEGERS: u8 = 2;

/// The number of the first profile that has octahedral attributes (this project's choice).
pub const OCTAHEDRAL_SINCE: u32 = 3;

/// The fewest bits of a coordinate in the square.
pub const MIN_OCTAHEDRAL_BITS: u8 = 2;

/// The most bits of a coordinate in the square.
pub const MAX_OCTAHEDRAL_BITS: u8 = 30;

/// Whether the coordinates of a square may have so many bits.
pub fn are_octahedral_bits(bits: u8) -> bool
    ensures { result ≡ are_octahedral_bits bits }
{
    MIN_OCTAHEDRAL_BITS <= bits && bits <= MAX_OCTAHEDRAL_BITS
}

/// Two less than this power of two.
#[tactic(auto, using(std::proofs::lemmas::Nat::one_shl, std::proofs::lemmas::Nat::pow_pos, std::proofs::lemmas::Nat::pow_below))]
fn greatest_of_bits(k: u32) -> i32
    requires some { 1 ≤ k }
    requires few { k < 31 }
    ensures { result ≡ pos (2 ^ k - 2) }
{
    ((1u32 << k) - 2) as i32
}

/// The bounds of the coordinates in a square of so many bits: 0 to 2^bits - 2.
pub fn square_bounds(bits: u8) -> Bounds
    requires { IsTrue (are_octahedral_bits bits) }
    ensures { result ≡ square_bounds bits }
{
    Bounds {
        least: 0,
        greatest: greatest_of_bits(bits as u32),
    }
}
