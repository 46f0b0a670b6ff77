//! Slots and numbers of a precision.

ghost use Rattle.std.specs.Prelude.{◌≡◌, ℕ, ◌+◌, ◌-◌, ◌*◌, ◌/◌, ◌%◌, ◌^◌, ◌<◌, ◌≤◌};

/// How many slots a precision of `bits` bits has.
#[tactic(auto, using(crate::proofs::Shifts::shifted))]
pub(crate) fn slots_of(bits: u32) -> u32
    requires { bits ≤ 20 }
    ensures slots { result ≡ 2 ^ bits }
    ensures most { result ≤ 2 ^ 20 }
    ensures least { 1 ≤ result }
{
    1 << bits
}

/// The slot that a number shows.
#[tactic(auto, using(std::proofs::lemmas::Nat::and_mask))]
pub(crate) fn slot_in(number: u32, bits: u32) -> u32
    requires { bits ≤ 20 }
    ensures { result ≡ number % 2 ^ bits }
{
    number & (slots_of(bits) - 1)
}

/// The number after a pull: `slot` is the slot that it shows, `cum` slots lie below the symbol's
/// interval and `prob` in it.
pub(crate) fn number_after(number: u32, bits: u32, slot: u32, cum: u32, prob: u32) -> u32
    requires bits { bits ≤ 20 }
    requires slot { slot ≡ number % 2 ^ bits }
    requires above { cum ≤ slot }
    requires below { slot < cum + prob }
    requires within { cum + prob ≤ 2 ^ bits }
    ensures pulled { result ≡ number / 2 ^ bits * prob + slot - cum }
    ensures small { result ≤ number }
{
    (number >> bits) * prob + (slot - cum)
}

/// The number after a push: `rest` is what is left of it after the bytes that were emitted.
#[tactic(auto, using(crate::proofs::Shifts::pushed_fits))]
pub(crate) fn number_with(rest: u32, bits: u32, cum: u32, prob: u32) -> u32
    requires bits { bits ≤ 20 }
    requires some { 0 < prob }
    requires within { cum + prob ≤ 2 ^ bits }
    requires above { 4 * prob ≤ rest }
    requires below { rest < 1024 * prob }
    ensures pushed { result ≡ rest / prob * 2 ^ bits + rest % prob + cum }
    ensures above { 4 * 2 ^ bits ≤ result }
    ensures below { result < 256 * (4 * 2 ^ bits) }
{
    let slots = slots_of(bits);
    rest / prob * slots + rest % prob + cum
}
