//! Reading a block, bit by bit.

ghost use Rattle.std.specs.Prelude.{◌≡◌, ℕ, ◌+◌, ◌-◌, ◌*◌, ◌/◌, ◌%◌, ◌^◌, ◌<◌, ◌≤◌, ◌↔◌, IsTrue, length};
ghost use Rattle.drc_bits.specs.Reading.{Takes};
ghost use Rattle.rans_core.specs.Coder.{CoderState, refilled, unread};
ghost use Rattle.rans_binary.specs.Blocks.{Block, after_bit, bit_block_at, next_bit};

use drc_base::{Fault, Kind};
use drc_bits::Cursor;
use rans_core::first_state;
use std::marker::Model;

/// The bits of a block, read one after another. Contracts see it as a `Block`: how many of the 256
/// slots are ones, its number, and the bytes that are left, the last one first. Draco Bitstream
/// Specification 2.2, section Rans Decoding.
#[derive(Drop)]
pub struct BitBlock<'a> {
    coded: &'a [u8],
    left: usize,
    number: u32,
    ones: u32,
}

impl<'a> Model for BitBlock<'a> {
    ghost use Rattle.std.specs.Prelude.{ℕ, ◌^◌, ◌<◌, ◌≤◌, length};
    ghost use Rattle.rans_core.specs.Coder.{unread};
    ghost use Rattle.rans_binary.specs.Blocks.{Block};

    ghost Value = { Block };

    ghost view = { λ b. record { ones = b.ones; state = record { number = b.number; bytes = unread b.coded.now b.left } } };

    ghost invariant = { λ b. (0 < b.ones) × (b.ones < 256) × (b.left ≤ length b.coded.now) × (b.number < 2 ^ 20)
        × (0 < b.left → 16 ≤ b.number) };
}

/// A number at least 4096 from one of at least 16, by the last byte below the place `left`, where a
/// byte is left and the number is smaller. Gives the number and the place after that.
fn refill_once(coded: &[u8], left: usize, number: u32) -> (u32, usize)
    requires left { left ≤ length coded.now }
    requires number { number < 2 ^ 20 }
    requires least { 0 < left → 16 ≤ number }
    ensures refills { refilled 4096 number (unread coded.now left) ≡ record { number = result.0; bytes = unread coded.now result.1 } }
    ensures number { result.0 < 2 ^ 20 }
    ensures left { result.1 ≤ left }
    ensures full { 0 < result.1 → 4096 ≤ result.0 }
{
    if left == 0 {
        return (number, 0);
    }
    if number >= 4096 {
        return (number, left);
    }
    (number * 256 + u32::from(coded[left - 1]), left - 1)
}

/// The bit of a refilled number, and the number after it. Both numbers are computed, and one is chosen.
fn pull_bit(number: u32, ones: u32) -> (bool, u32)
    requires number { number < 2 ^ 20 }
    requires ones { ones < 256 }
    requires some { 0 < ones }
    ensures bit { IsTrue result.0 ↔ (number % 256 < ones) }
    ensures one { number % 256 < ones → result.1 ≡ number / 256 * ones + number % 256 }
    ensures zero { ones ≤ number % 256 → result.1 + number / 256 * ones + ones ≡ number }
    ensures least { 4096 ≤ number → 16 ≤ result.1 }
    ensures most { result.1 ≤ number }
{
    let part = (number >> 8) * ones;
    let slot = number & 255;
    let one = part + slot;
    let is_one = slot < ones;
    // This may wrap where it is not chosen.
    let zero = number.wrapping_sub(part).wrapping_sub(ones);
    (is_one, if is_one { one } else { zero })
}

impl<'a> BitBlock<'a> {
    /// Reads a block at the cursor, its bits not yet. `BadProb` where a zero has no slot, `Short` and
    /// `Long` of the size, `Short` of the coded bytes, and `BadStart` at the first of them where they
    /// hold no first state; the cursor then stays. It takes no memory.
    #[tactic(auto, unfolding(crate::specs::Blocks::bit_block_at))]
    pub fn read(c: &mut Cursor<'a>) -> Result<BitBlock<'a>, Fault>
        ensures { Takes (λ b. b) (bit_block_at c.old) c.old c.new result }
    {
        let mut ahead = c.copy();
        let bad_prob = ahead.fault(Kind::BadProb);
        let zeros = ahead.get_u8()?;
        if zeros == 0 {
            return Err(bad_prob);
        }
        let size = ahead.var32()?;
        let bad_start = ahead.fault(Kind::BadStart);
        let coded = ahead.slice(u64::from(size))?;
        let Some((number, left)) = first_state(coded, 3, 4096) else {
            return Err(bad_start);
        };
        *c = ahead;
        Ok(BitBlock {
            coded,
            left,
            number,
            ones: 256 - u32::from(zeros),
        })
    }

    /// The same block at the same bit: each of the two goes on by itself.
    pub fn copy(&self) -> BitBlock<'a>
        ensures { result ≡ self.now }
    {
        BitBlock {
            coded: self.coded,
            left: self.left,
            number: self.number,
            ones: self.ones,
        }
    }

    /// The next bit. It can't fail, however often it is called, and takes no memory.
    pub fn next(&mut self) -> bool
        ensures bit { result ≡ next_bit self.old }
        ensures after { self.new ≡ after_bit self.old }
    {
        let (number, left) = refill_once(self.coded, self.left, self.number);
        let (bit, after) = pull_bit(number, self.ones);
        self.left = left;
        self.number = after;
        bit
    }
}
