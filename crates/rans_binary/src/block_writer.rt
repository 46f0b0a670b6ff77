//! Writing a block.

ghost use Rattle.std.specs.Prelude.{◌≡◌, ℕ, ◌+◌, ◌-◌, ◌*◌, ◌/◌, ◌%◌, ◌^◌, ◌<◌, ◌≤◌, List, Bool, [], ◌∷◌, ◌++◌, length, drop, map, not, count_by, reverse, if◌then◌else◌, IfOk, OnOk, OnErr, vec_len};
ghost use Rattle.rans_core.specs.Coder.{CoderState, all_pushed, drained, state_pushed};
ghost use Rattle.rans_binary.specs.Blocks.{IsBlockOf, block, coded_bits, bit_interval, zeros_for};

use drc_base::Memory;
use drc_bits::put_var32;
use rans_core::end_bytes;
use std::alloc::Global;

/// How many of the bits are zeros.
fn count_zeros(bits: &[bool]) -> usize
    ensures { result ≡ count_by not bits.now }
{
    bits.iter().filter(|bit| !**bit).count()
}

/// How many of the 256 slots are zeros in a block of these bits.
fn zeros_of(bits: &[bool]) -> u32
    requires { length bits.now < 2 ^ 31 }
    ensures zeros { result ≡ zeros_for bits.now }
    ensures least { 1 ≤ result }
    ensures most { result ≤ 255 }
{
    let zeros = count_zeros(bits) as u64;
    let all = (bits.len() as u64).max(1);
    ((256 * zeros + all / 2) / all).min(255).max(1) as u32
}

/// The slots of a bit.
#[derive(Clone, Copy)]
struct Slots {
    /// How many slots lie below them.
    below: u32,
    /// How many they are.
    count: u32,
    /// What a number is multiplied by in the place of dividing it by their count.
    reciprocal: u64,
    ghost some: { 0 < count },
    ghost within: { below + count ≤ 256 },
    ghost exact: { reciprocal ≡ (2 ^ 32 + count - 1) / count },
}

/// These slots.
fn slots_from(below: u32, count: u32) -> Slots
    requires some { 0 < count }
    requires within { below + count ≤ 256 }
    ensures below { result.below ≡ below }
    ensures count { result.count ≡ count }
{
    Slots {
        below,
        count,
        reciprocal: ((1 << 32) + u64::from(count) - 1) / u64::from(count),
    }
}

/// The quotient of a number and the count of slots. A multiplication takes the place of the division: the
/// reciprocal is too great by less than the count, which a number of 20 bits doesn't show.
#[tactic(auto, using(crate::proofs::Quotients::quotient_is))]
fn quotient(number: u32, slots: Slots) -> u32
    requires { number < 2 ^ 20 }
    ensures { result ≡ number / slots.count }
{
    (u64::from(number) * slots.reciprocal >> 32) as u32
}

/// Emits the low byte of a number that is at least 4096 times `prob`. Gives what is left of the number.
fn drain_once(out: &mut Vec<u8>, number: u32, prob: u32) -> Result<u32, Memory>
    requires some { 0 < prob }
    requires prob { prob ≤ 256 }
    requires above { 4096 ≤ number }
    requires below { number < 2 ^ 20 }
    ensures drained { IfOk result (λ n. drained 4 (256 * (16 * prob)) number (reverse out.old.items)
        ≡ record { number = n; bytes = reverse out.new.items }) }
    ensures above { IfOk result (λ n. 16 * prob ≤ n) }
    ensures below { IfOk result (λ n. n < 256 * (16 * prob)) }
    ensures len { vec_len out.new ≤ vec_len out.old + 1 }
{
    if number < 4096 * prob {
        return Ok(number);
    }
    out.push((number & 255) as u8)?;
    Ok(number >> 8)
}

/// The number after a push: `rest` is what is left of it after the byte that was emitted.
#[tactic(auto, using(crate::proofs::Pushes::pushed_fits))]
fn number_with(rest: u32, slots: Slots) -> u32
    requires above { 16 * slots.count ≤ rest }
    requires below { rest < 256 * (16 * slots.count) }
    ensures pushed { result ≡ rest / slots.count * 256 + rest % slots.count + slots.below }
    ensures above { 4096 ≤ result }
    ensures below { result < 2 ^ 20 }
{
    let part = quotient(rest, slots);
    part * 256 + (rest - part * slots.count) + slots.below
}

/// Pushes a bit of these slots: emits at most one byte, and gives the number after it.
fn push_bit(out: &mut Vec<u8>, number: u32, slots: Slots) -> Result<u32, Memory>
    requires above { 4096 ≤ number }
    requires below { number < 2 ^ 20 }
    ensures pushed { IfOk result (λ n. state_pushed 16 256 (record { cum = slots.below; prob = slots.count }) (record { number = number; bytes = reverse out.old.items })
        ≡ record { number = n; bytes = reverse out.new.items }) }
    ensures above { IfOk result (λ n. 4096 ≤ n) }
    ensures below { IfOk result (λ n. n < 2 ^ 20) }
    ensures len { vec_len out.new ≤ vec_len out.old + 1 }
{
    let rest = drain_once(out, number, slots.count)?;
    Ok(number_with(rest, slots))
}

/// The coded bytes of the bits, the last one pushed first.
fn code_bits(alloc: Global, bits: &[bool], zeros: u32) -> Result<Vec<u8>, Memory>
    requires least { 1 ≤ zeros }
    requires most { zeros ≤ 255 }
    requires length { length bits.now < 2 ^ 31 }
    ensures coded { IfOk result (λ v. v.items ≡ coded_bits zeros bits.now) }
    ensures length { IfOk result (λ v. vec_len v < 2 ^ 32) }
{
    let mut out = Vec::new(alloc);
    let mut number = 4096;
    let ones = slots_from(0, 256 - zeros);
    let none = slots_from(256 - zeros, zeros);
    let last = bits.len();
    for k in 0..last {
        let slots = if bits[last - 1 - k] { ones } else { none };
        number = push_bit(&mut out, number, slots)?;
    }
    let end = end_bytes(number - 4096);
    out.extend_from_slice(end.as_slice())?;
    Ok(out)
}

/// The block of the bits: its probability of a zero, the size of the coded bytes, and these. Wherever it
/// stands and whatever bytes follow, it is read with exactly its length as one block, whose first bits are
/// these.
#[tactic(auto, unfolding(crate::specs::Blocks::block))]
pub fn write_block(alloc: Global, bits: &[bool]) -> Result<Vec<u8>, Memory>
    requires { length bits.now < 2 ^ 31 }
    ensures block { IfOk result (λ v. v.items ≡ block bits.now) }
    ensures again { IfOk result (λ v. IsBlockOf bits.now v.items) }
{
    let zeros = zeros_of(bits);
    let coded = code_bits(alloc, bits, zeros)?;
    let mut out = Vec::new(alloc);
    out.push(zeros as u8)?;
    out.extend_from_slice(put_var32(coded.len() as u32).as_slice())?;
    out.extend_from_slice(coded.as_slice())?;
    Ok(out)
}
