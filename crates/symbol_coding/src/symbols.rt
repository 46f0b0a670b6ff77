//! Coded symbols, taken one after another.

ghost use Rattle.std.specs.Prelude.{◌≡◌, ℕ, ◌+◌, ◌^◌, ◌<◌, ◌≤◌, ◌∷◌, length, sum, IfOk};
ghost use Rattle.symbol_coding.specs.Symbols.{next_symbols};

use crate::coded::pull;
use drc_base::Memory;
use rans_core::Decoder;
use std::alloc::Global;
use std::marker::Model;
use symbol_tables::Table;

/// Coded symbols of which a number is still to come. Contracts see the list of these. Draco Bitstream
/// Specification 2.2, section Symbol Decoding.
#[derive(Drop)]
pub struct CodedSymbols<'a> {
    decoder: Decoder<'a>,
    table: Table,
    left: u32,
}

impl<'a> Model for CodedSymbols<'a> {
    ghost use Rattle.std.specs.Prelude.{◌≡◌, ℕ, ◌^◌, List, sum};
    ghost use Rattle.symbol_coding.specs.Symbols.{next_symbols};

    ghost Value = { List ℕ };

    ghost view = { λ s. next_symbols s.left s.decoder.bits s.table s.decoder.state };

    ghost invariant = { λ s. sum s.table ≡ 2 ^ s.decoder.bits };
}

impl<'a> CodedSymbols<'a> {
    /// The next `n` symbols of a decoder, by a table of its precision.
    pub(crate) fn new(decoder: Decoder<'a>, table: Table, n: u32) -> CodedSymbols<'a>
        requires { sum table ≡ 2 ^ decoder.bits }
        ensures symbols { result ≡ next_symbols n decoder.entry.bits table decoder.entry.state }
        ensures len { length result ≡ n }
    {
        CodedSymbols {
            decoder,
            table,
            left: n,
        }
    }

    /// How many are to come.
    pub fn len(&self) -> u32
        ensures { result ≡ length self.now }
    {
        self.left
    }

    /// Takes the next symbol. It takes no memory, and coded symbols have no faults of their own.
    #[inline(always)]
    pub fn next(&mut self) -> u32
        requires { 0 < length self.old }
        ensures { self.old ≡ result ∷ self.new }
    {
        let symbol = pull(&mut self.decoder, &self.table);
        self.left -= 1;
        symbol
    }

    /// Takes all symbols that are to come.
    pub fn into_list(self, alloc: Global) -> Result<Vec<u32>, Memory>
        ensures { IfOk result (λ v. v.items ≡ self.entry) }
    {
        let mut symbols = self;
        let n = symbols.len();
        let mut list = Vec::with_capacity(alloc, n as usize)?;
        for _k in 0..n {
            list.push_reserved(symbols.next());
        }
        Ok(list)
    }
}
