//! Where the symbols come from that the machine of reverse decoding is fed: bits, or lists of contexts.

ghost use Rattle.std.specs.Prelude.{◌≡◌, ℕ, suc, ◌+◌, ◌≤◌, min, Bool, IsTrue, OnOk};
ghost use Rattle.drc_bits.specs.Reading.{Reads};
ghost use Rattle.eb_valence.specs.Contexts.{symbol_at};
ghost use Rattle.eb_section.specs.Feeding.{Source, standard, Draws};
ghost use Rattle.eb_section.specs.Connectivity.{standard_at};

use corner_table::Symbol;
use drc_base::{Fault, Kind};
use drc_bits::Cursor;
use eb_rebuild::Rebuild;
use eb_standard::SymbolReader;
use eb_valence::ContextReader;
use std::marker::Model;
use std::sync::ledger::Ledger;

/// A source of symbols in the order of decoding.
pub(crate) trait SymbolSource: Drop {
    /// The next symbol for a machine in a state, and what is left of the source, or a fault.
    ghost gives: { Source Self };

    /// How many symbols can still come, beside the first of all.
    ghost left: { Self → ℕ };

    /// How many symbols there were in all, beside the first.
    ghost whole: { Self → ℕ };

    /// Whether the machine is asked for the degrees of vertices.
    ghost asks: { Bool };

    /// Whether the machine will be asked for the degrees of vertices.
    fn asks_degrees(&self) -> bool
        ensures { result ≡ asks };

    /// How many of so many symbols can come at most.
    fn most(&self, symbols: u32) -> u32
        ensures most { result ≡ min symbols (suc (whole self.now)) }
        ensures enough { left self.now ≤ whole self.now };

    /// Draws the symbol that the machine is to take next, which has this number. After a fault the source
    /// is given up. It takes no memory.
    fn draw<R: Rebuild<L>, L: Ledger>(&mut self, machine: &R, number: u32) -> Result<Symbol, Fault>
        requires live { IsTrue (R.live machine.now) }
        requires unclosed { (R.state machine.now).closes ≡ 0 }
        requires degrees { IsTrue asks → IsTrue (R.has_degrees machine.now) }
        requires number { number ≡ (R.state machine.now).built }
        ensures draws { Draws (gives self.old (R.state machine.now)) self.new result }
        ensures fewer { OnOk result (left self.new + min number 1 ≤ left self.old) };
}

/// The symbols of the standard traversal, in bits of so many bytes.
#[derive(Drop)]
pub(crate) struct BitSource<'a> {
    reader: SymbolReader<'a>,
    short: Fault,
    bytes: usize,
}

impl<'a> Model for BitSource<'a> {
    ghost use Rattle.std.specs.Prelude.{◌≡◌, length};
    ghost use Rattle.eb_section.specs.Feeding.{Standard};

    ghost Value = { Standard };

    ghost view = { λ s. record { short = s.short; place = s.reader } };

    ghost invariant = { λ s. s.bytes ≡ length s.reader.place.bytes };
}

impl<'a> BitSource<'a> {
    /// Reads how many bytes the symbols have, and these, their bits not yet.
    #[tactic(auto, unfolding(crate::specs::Connectivity::standard_at))]
    pub(crate) fn read(c: &mut Cursor<'a>) -> Result<BitSource<'a>, Fault>
        ensures { Reads (λ s. s) (standard_at c.old) c.new result }
    {
        let size = c.var64()?;
        let short = c.fault(Kind::Short);
        let bytes = c.slice(size)?;
        Ok(BitSource {
            reader: SymbolReader::new(bytes),
            short,
            bytes: bytes.len(),
        })
    }
}

impl<'a> SymbolSource for BitSource<'a> {
    ghost use Rattle.std.specs.Prelude.{length, false};
    ghost use Rattle.drc_bits.specs.Bits.{bits_left};
    ghost use Rattle.eb_section.specs.Calls.{bit_count};

    ghost gives = { standard };

    ghost left = { λ s. length (bits_left s.place.place) };

    ghost whole = { bit_count };

    ghost asks = { false };

    /// Bits need no degrees.
    fn asks_degrees(&self) -> bool {
        false
    }

    /// No more than there are bits, since a symbol takes one at least.
    fn most(&self, symbols: u32) -> u32 {
        let bits = self.bytes.saturating_mul(8);
        bits.saturating_add(1).min(symbols as usize) as u32
    }

    /// The symbol whose bits come next; where they aren't there, `Short` at the first byte of the symbols.
    fn draw<R: Rebuild<L>, L: Ledger>(
        &mut self,
        machine: &R,
        number: u32,
    ) -> Result<Symbol, Fault> {
        match self.reader.next() {
            Some(symbol) => Ok(symbol),
            None => Err(self.short),
        }
    }
}

impl SymbolSource for ContextReader {
    ghost use Rattle.std.specs.Prelude.{length, sum_by, true};

    ghost gives = { symbol_at };

    ghost left = { λ lists. sum_by length lists };

    ghost whole = { λ lists. sum_by length lists };

    ghost asks = { true };

    /// The degree gives the context.
    fn asks_degrees(&self) -> bool {
        true
    }

    /// No more than the first and those in the lists of the contexts.
    fn most(&self, symbols: u32) -> u32 {
        ContextReader::most(self, symbols)
    }

    /// The last symbol left in the context of the machine's degree; the first symbol is E. `ContextEmpty`
    /// and `BadSymbol` at the symbol's number.
    fn draw<R: Rebuild<L>, L: Ledger>(
        &mut self,
        machine: &R,
        number: u32,
    ) -> Result<Symbol, Fault> {
        let degree = if number == 0 {
            None
        } else {
            Some(machine.degree())
        };
        match self.next(degree) {
            Ok(symbol) => Ok(symbol),
            Err(kind) => Err(Fault::new(kind, u64::from(number))),
        }
    }
}
