//! Pushing: symbols into a coder's bytes, the last symbol first.

ghost use Rattle.std.specs.Prelude.{◌≡◌, ℕ, ◌+◌, ◌-◌, ◌*◌, ◌^◌, ◌<◌, ◌≤◌, List, [], reverse, IfOk, OnOk, OnErr, All, vec_len, vec_capacity};
ghost use Rattle.rans_core.specs.Coder.{Coder, Fits, Interval, CoderState, Unpacks, all_pushed, all_spelled, drained, state_pushed, spelled};

use crate::ends::end_bytes;
use crate::slots::{number_with, slots_of};
use drc_base::Memory;
use std::alloc::Global;
use std::marker::Model;

/// A writer of symbols into bytes that a `Decoder` of the same precision reads: what was pushed last
/// is pulled first. Contracts see it as a `Coder`: its precision in bits, its number, and the bytes
/// emitted so far, the last one first. The push rule is this project's choice of an encoder for the
/// Draco Bitstream Specification 2.2, section Rans Decoding.
#[derive(Drop)]
pub struct Encoder {
    bytes: Vec<u8>,
    number: u32,
    bits: u32,
}

impl Model for Encoder {
    ghost use Rattle.std.specs.Prelude.{◌+◌, ◌^◌, ◌<◌, ◌≤◌, ◌*◌, reverse};
    ghost use Rattle.rans_core.specs.Coder.{Coder};

    ghost Value = { Coder };

    ghost view = { λ e. record { bits = e.bits; state = record { number = e.number; bytes = reverse e.bytes.items } } };

    ghost invariant = { λ e. (12 ≤ e.bits) × (e.bits ≤ 20) × (4 * 2 ^ e.bits ≤ e.number) × (e.number < 256 * (4 * 2 ^ e.bits)) };
}

/// Emits the low byte of the number while it is at least 1024 times `prob`, at most four times. Gives
/// what is left of the number.
fn drain(bytes: &mut Vec<u8>, number: u32, prob: u32) -> u32
    requires room { vec_len bytes.old + 4 ≤ vec_capacity bytes.old }
    requires some { 0 < prob }
    requires small { prob ≤ 2 ^ 20 }
    requires number { 4 * prob ≤ number }
    ensures drained { drained 4 (256 * (4 * prob)) number (reverse bytes.old.items)
        ≡ record { number = result; bytes = reverse bytes.new.items } }
    ensures above { 4 * prob ≤ result }
    ensures below { result < 256 * (4 * prob) }
{
    let limit = 256 * (4 * prob);
    let mut rest = number;
    for _ in 0..4u32 {
        if rest < limit {
            break;
        }
        bytes.push_reserved((rest & 255) as u8);
        rest >>= 8;
    }
    rest
}

impl Encoder {
    /// An encoder of no symbol yet. `bits` is the precision: there are 2 to the power `bits` slots. It
    /// takes no memory.
    pub fn new(alloc: Global, bits: u32) -> Encoder
        requires low { 12 ≤ bits }
        requires high { bits ≤ 20 }
        ensures { result ≡ record { bits = bits; state = all_pushed 4 (2 ^ bits) [] } }
    {
        Encoder {
            bytes: Vec::new(alloc),
            number: 4 * slots_of(bits),
            bits,
        }
    }

    /// Pushes a symbol: `cum` slots lie below its interval, `prob` slots in it. If memory runs out,
    /// the encoder stays as it was.
    pub fn push(&mut self, cum: u32, prob: u32) -> Result<(), Memory>
        requires some { 0 < prob }
        requires within { cum + prob ≤ 2 ^ self.old.bits }
        ensures ok { OnOk result (self.new ≡ record { bits = self.old.bits; state = state_pushed 4 (2 ^ self.old.bits) (record { cum = cum; prob = prob }) self.old.state }) }
        ensures err { OnErr result (self.new ≡ self.old) }
    {
        self.bytes.reserve(4)?;
        let rest = drain(&mut self.bytes, self.number, prob);
        self.number = number_with(rest, self.bits, cum, prob);
        Ok(())
    }

    /// The bytes of all symbols: a decoder that starts at their end pulls the symbols, the last pushed
    /// first.
    pub fn finish(self) -> Result<Vec<u8>, Memory>
        ensures spelled { IfOk result (λ v. v.items ≡ spelled (4 * 2 ^ self.bits) self.state) }
        ensures pushed { (is : List Interval) → self.state ≡ all_pushed 4 (2 ^ self.bits) is →
            IfOk result (λ v. v.items ≡ all_spelled 4 (2 ^ self.bits) is) }
        ensures pulls { (is : List Interval) → All (Fits (2 ^ self.bits)) is → self.state ≡ all_pushed 4 (2 ^ self.bits) is →
            IfOk result (λ v. Unpacks 4 (2 ^ self.bits) v.items is) }
    {
        let end = end_bytes(self.number - 4 * slots_of(self.bits));
        let mut bytes = self.bytes;
        bytes.extend_from_slice(end.as_slice())?;
        Ok(bytes)
    }
}
