//! Reading symbols.

ghost use Rattle.std.specs.Prelude.{◌≡◌, ◌<◌, false, length, Some, None, IfSome};
ghost use Rattle.drc_bits.specs.Bits.{bits_left};
ghost use Rattle.eb_standard.specs.SymbolBits.{next_symbol, place_behind_symbol, three_bit_symbol, longer, after_longer};
ghost use Rattle.eb_standard.specs.ReadBack.{ReadsBack, IsInBits};

use corner_table::Symbol;
use drc_bits::BitReader;
use std::marker::Model;

/// A reader of symbols from their bits. Contracts see it as its place in the bits, and whether it has
/// taken the first bit of a symbol whose other bits aren't there.
#[derive(Drop)]
pub struct SymbolReader<'a> {
    bits: BitReader<'a>,
    begun: bool,
}

impl<'a> Model for SymbolReader<'a> {
    ghost use Rattle.eb_standard.specs.SymbolBits.{SymbolPlace};

    ghost Value = { SymbolPlace };

    ghost view = { λ r. record { place = r.bits; begun = r.begun } };
}

/// The symbol whose first bit is 1, by the number of its other two bits.
fn symbol_from(rest: u32) -> Symbol
    ensures { result ≡ three_bit_symbol rest }
{
    match rest {
        0 => Symbol::S,
        1 => Symbol::L,
        2 => Symbol::R,
        _ => Symbol::E,
    }
}

impl<'a> SymbolReader<'a> {
    /// A reader that begins at the lowest bit of the first byte.
    pub fn new(bytes: &'a [u8]) -> SymbolReader<'a>
        ensures { result ≡ record { place = record { bytes = bytes.now; taken = 0 }; begun = false } }
    {
        SymbolReader {
            bits: BitReader::new(bytes),
            begun: false,
        }
    }

    /// The next symbol, whose bits come next: one bit of a C, three of each other (Draco Bitstream
    /// Specification 2.2, Edgebreaker standard traversal). None exactly where not all of its bits are
    /// there; then no symbol follows. It takes no memory.
    pub fn next(&mut self) -> Option<Symbol>
        ensures symbol { result ≡ next_symbol self.old }
        ensures after { self.new ≡ place_behind_symbol self.old }
        ensures back { ReadsBack self.old self.new result }
        ensures stands { IsInBits self.old result }
        ensures fewer { IfSome result (λ x. length (bits_left self.new.place) < length (bits_left self.old.place)) }
    {
        self.next_found()
    }

    /// The next symbol.
    fn next_found(&mut self) -> Option<Symbol>
        ensures symbol { result ≡ next_symbol self.old }
        ensures after { self.new ≡ place_behind_symbol self.old }
    {
        if self.begun {
            return self.longer();
        }
        match self.bits.bits(1) {
            None => None,
            Some(bit) => {
                if bit == 0 {
                    Some(Symbol::C)
                } else {
                    self.longer()
                }
            }
        }
    }

    /// The symbol of the next two bits.
    #[inline(always)]
    fn longer(&mut self) -> Option<Symbol>
        ensures symbol { result ≡ longer self.old.place }
        ensures after { self.new ≡ after_longer self.old.place }
    {
        match self.bits.bits(2) {
            None => {
                self.begun = true;
                None
            }
            Some(rest) => {
                self.begun = false;
                Some(symbol_from(rest))
            }
        }
    }
}
