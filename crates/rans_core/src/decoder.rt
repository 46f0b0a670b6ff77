//! Pulling: the symbols of a coder's bytes, one after another.

ghost use Rattle.std.specs.Prelude.{◌≡◌, ℕ, ◌+◌, ◌*◌, ◌%◌, ◌^◌, ◌<◌, ◌≤◌, IfSome, MatchOption};
ghost use Rattle.rans_core.specs.Coder.{Coder, HasSlot, Interval, pulled, refilled, refilled_coder, started, unread};

use crate::ends::{first_state, refill};
use crate::slots::{number_after, slot_in, slots_of};
use std::marker::Model;

/// A reader of symbols from the bytes that an `Encoder` of the same precision gave. Contracts see it
/// as a `Coder`: its precision in bits, its number, and the bytes that are left, the last one first.
/// Draco Bitstream Specification 2.2, section Rans Decoding.
#[derive(Drop)]
pub struct Decoder<'a> {
    bytes: &'a [u8],
    left: usize,
    number: u32,
    bits: u32,
}

impl<'a> Model for Decoder<'a> {
    ghost use Rattle.std.specs.Prelude.{◌+◌, ◌^◌, ◌<◌, ◌≤◌, ◌*◌, length};
    ghost use Rattle.rans_core.specs.Coder.{Coder, unread};

    ghost Value = { Coder };

    ghost view = { λ d. record { bits = d.bits; state = record { number = d.number; bytes = unread d.bytes.now d.left } } };

    ghost invariant = { λ d. (12 ≤ d.bits) × (d.bits ≤ 20) × (d.left ≤ length d.bytes.now) × (d.number < 256 * (4 * 2 ^ d.bits)) };
}

impl<'a> Decoder<'a> {
    /// Starts at the last bytes. `bits` is the precision: there are 2 to the power `bits` slots.
    /// `None` exactly where the bytes hold no first state: there is none, too few of them, or their
    /// number is 1024 times the slots or more.
    pub fn start(bytes: &'a [u8], bits: u32) -> Option<Decoder<'a>>
        requires low { 12 ≤ bits }
        requires high { bits ≤ 20 }
        ensures { MatchOption result (started 4 (4 * 2 ^ bits) bytes.now ≡ None)
            (λ d. (started 4 (4 * 2 ^ bits) bytes.now ≡ Some d.state) × (d.bits ≡ bits)) }
    {
        let (number, left) = first_state(bytes, 4, 4 * slots_of(bits))?;
        Some(Decoder {
            bytes,
            left,
            number,
            bits,
        })
    }

    /// The slot that comes next, after a refill from the bytes that are left. A second call in a row
    /// gives the same slot.
    pub fn slot(&mut self) -> u32
        ensures refilled { self.new ≡ refilled_coder self.old }
        ensures slot { result ≡ self.new.state.number % 2 ^ self.old.bits }
    {
        let (number, left) = refill(self.bytes, self.left, self.number, 4 * slots_of(self.bits));
        self.number = number;
        self.left = left;
        slot_in(number, self.bits)
    }

    /// Takes the symbol that has the next slot: `cum` slots lie below its interval, `prob` slots in it.
    pub fn take(&mut self, cum: u32, prob: u32)
        requires within { cum + prob ≤ 2 ^ self.old.bits }
        requires slot { HasSlot (record { cum = cum; prob = prob }) (self.old.state.number % 2 ^ self.old.bits) }
        ensures { self.new ≡ record { bits = self.old.bits; state = pulled (2 ^ self.old.bits) (record { cum = cum; prob = prob }) self.old.state } }
    {
        let slot = slot_in(self.number, self.bits);
        self.number = number_after(self.number, self.bits, slot, cum, prob);
    }
}
