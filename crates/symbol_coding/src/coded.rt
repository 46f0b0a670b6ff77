//! Coded symbols: the bytes of a range coder behind their number.

ghost use Rattle.std.specs.Prelude.{◌≡◌, ℕ, ◌+◌, ◌*◌, ◌/◌, ◌^◌, ◌<◌, ◌≤◌, max, min, sum, IfOk};
ghost use Rattle.drc_bits.specs.Reading.{Reads};
ghost use Rattle.symbol_coding.specs.Block.{precision};
ghost use Rattle.symbol_coding.specs.Symbols.{coded_at, refilled_symbol, state_behind_symbol};

use drc_base::{Fault, Kind};
use drc_bits::Cursor;
use rans_core::Decoder;
use symbol_tables::Table;

/// The precision in bits of a coder for symbols of so many bits.
pub fn precision(length: u32) -> u32
    requires { length ≤ 32 }
    ensures precision { result ≡ precision length }
    ensures low { 12 ≤ result }
    ensures high { result ≤ 20 }
{
    (3 * length / 2).min(20).max(12)
}

/// Reads the coded bytes of symbols, their number first: a decoder of them, and the place of the first
/// one. `Short` and `Long` of the number, `Short` of the bytes, and `BadStart` at the first of them
/// where they hold no first state.
#[tactic(auto, unfolding(crate::specs::Symbols::coded_at))]
pub fn read_coded<'a>(c: &mut Cursor<'a>, bits: u32) -> Result<(Decoder<'a>, u64), Fault>
    requires low { 12 ≤ bits }
    requires high { bits ≤ 20 }
    ensures coded { Reads (λ r. record { place = r.1; state = r.0.state }) (coded_at bits c.old) c.new result }
    ensures bits { IfOk result (λ r. r.0.bits ≡ bits) }
{
    let size = c.var64()?;
    let bad_start = c.fault(Kind::BadStart);
    let coded = c.slice(size)?;
    match Decoder::start(coded, bits) {
        Some(decoder) => Ok((decoder, bad_start.at)),
        None => Err(bad_start),
    }
}

/// Pulls the next symbol.
#[inline(always)]
pub fn pull(decoder: &mut Decoder<'_>, table: &Table) -> u32
    requires { sum table.now ≡ 2 ^ decoder.old.bits }
    ensures symbol { result ≡ refilled_symbol decoder.old.bits table.now decoder.old.state }
    ensures after { decoder.new ≡ record { bits = decoder.old.bits; state = state_behind_symbol decoder.old.bits table.now decoder.old.state } }
{
    let slot = decoder.slot();
    let symbol = table.find(slot);
    decoder.take(table.cum(symbol), table.prob(symbol));
    symbol
}
