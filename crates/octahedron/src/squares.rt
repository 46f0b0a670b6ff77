//! Squares of octahedral values.

ghost use Rattle.std.specs.Prelude.{◌≡◌, ◌↔◌, ◌-◌, ◌^◌, ◌<◌, ◌≤◌, ◌<ℤ◌, pos, IfSome, IsSome};

/// The square of octahedral values of so many bits. With the centre c its values are pairs of integers from 0 to 2c, and its
/// points pairs from -c to c (Draco 1.5.5, canonicalized octahedral transform).
#[derive(Clone, Copy, Debug)]
pub struct Square {
    pub centre: i32,
    ghost some: { pos 0 <ℤ centre },
    ghost small: { centre <ℤ pos (2 ^ 29) },
}

impl Square {
    /// The square of values of this many bits: its centre is 2^(bits - 1) - 1. None exactly where they aren't 2 to 30.
    pub fn of_bits(bits: u8) -> Option<Square>
        ensures exact { IsSome result ↔ (2 ≤ bits) × (bits ≤ 30) }
        ensures centre { IfSome result (λ q. q.centre ≡ pos (2 ^ (bits - 1) - 1)) }
    {
        if bits < 2 || bits > 30 {
            return None;
        }
        Some(Square {
            centre: below_power(bits as u32 - 1),
        })
    }
}

/// One less than this power of two.
#[tactic(auto, using(std::proofs::lemmas::Nat::one_shl, std::proofs::lemmas::Nat::pow_pos, std::proofs::lemmas::Nat::pow_below))]
fn below_power(k: u32) -> i32
    requires some { 1 ≤ k }
    requires few { k < 30 }
    ensures value { result ≡ pos (2 ^ k - 1) }
    ensures some { pos 0 <ℤ result }
    ensures small { result <ℤ pos (2 ^ 29) }
{
    ((1u32 << k) - 1) as i32
}
