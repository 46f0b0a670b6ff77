//! Sets of numbers, kept as bits, 64 to a word.

ghost use Rattle.std.specs.Prelude.{◌≡◌, ◌*◌, ◌<◌, ◌↔◌, ℕ, IsTrue, length};
ghost use Rattle.mesh_model.specs.BitSet.{HasBit};

/// Whether a number is in a set.
#[inline(always)]
pub(crate) fn has_bit(words: &[u64], number: u32) -> bool
    requires { number < 64 * length words.now }
    ensures { IsTrue result ↔ HasBit words.now number }
{
    words[(number / 64) as usize] >> (number % 64) & 1 == 1
}

/// Puts a number into a set, and answers whether it was there.
#[inline(always)]
pub(crate) fn put_bit(words: &mut [u64], number: u32) -> bool
    requires { number < 64 * length words.old }
    ensures was { IsTrue result ↔ HasBit words.old number }
    ensures there { HasBit words.new number }
    ensures others { (n : ℕ) → HasBit words.old n → HasBit words.new n }
{
    let was = has_bit(words, number);
    words[(number / 64) as usize] |= 1 << (number % 64);
    was
}
