//! The integers of coded symbols, taken one after another.

ghost use Rattle.std.specs.Prelude.{◌≡◌, ◌<◌, ◌∷◌, IfOk, length, map};
ghost use Rattle.attr_section.specs.Values.{signed_of};

use crate::integers::signed_of;
use drc_base::Memory;
use predict::CorrectionSource;
use std::alloc::Global;
use std::marker::Model;
use symbol_coding::CodedSymbols;

/// The integers of coded zigzag symbols. Contracts see the list of those that are still to come.
#[derive(Drop)]
pub struct CodedIntegers<'a> {
    symbols: CodedSymbols<'a>,
}

impl<'a> Model for CodedIntegers<'a> {
    ghost use Rattle.std.specs.Prelude.{List, ℤ, map};
    ghost use Rattle.attr_section.specs.Values.{signed_of};

    ghost Value = { List ℤ };

    ghost view = { λ s. map signed_of s.symbols };
}

impl<'a> CodedIntegers<'a> {
    /// The integers of these symbols.
    pub fn new(symbols: CodedSymbols<'a>) -> CodedIntegers<'a>
        ensures { result ≡ map signed_of symbols.entry }
    {
        CodedIntegers { symbols }
    }

    /// All integers that are to come, in a list.
    pub fn into_list(self, alloc: Global) -> Result<Vec<i32>, Memory>
        ensures { IfOk result (λ v. v.items ≡ self.entry) }
    {
        let mut integers = self;
        let n = integers.len();
        let mut list = Vec::with_capacity(alloc, n)?;
        for _k in 0..n {
            list.push_reserved(integers.next());
        }
        Ok(list)
    }
}

impl<'a> CorrectionSource for CodedIntegers<'a> {
    ghost left = { λ s. s };

    fn len(&self) -> usize {
        self.symbols.len() as usize
    }

    #[inline(always)]
    fn next(&mut self) -> i32 {
        signed_of(self.symbols.next())
    }
}
