//! Reading symbols by their contexts.

ghost use Rattle.std.specs.Prelude.{◌≡◌, ◌+◌, ◌<◌, ◌≤◌, [], suc, min, length, map, get_or, set, sum_by, IfSome, OnOk};
ghost use Rattle.eb_valence.specs.Reading.{last_of, all_but_last, symbol_taken, taken_at, DrawsSymbol};

use crate::context_lists::CONTEXTS;
use crate::numbers::{context_of_degree, symbol_of_number};
use corner_table::Symbol;
use drc_base::Kind;
use std::marker::Model;

/// A reader of symbols from the lists of their contexts, each used from its back. The numbers are kept as
/// bytes, one for each face while a mesh is read. Contracts see it as what is left of the lists.
#[derive(Debug, Drop)]
pub struct ContextReader {
    left: [Vec<u8>; CONTEXTS],
}

impl Model for ContextReader {
    ghost use Rattle.std.specs.Prelude.{ℕ, List, map};

    ghost Value = { List (List ℕ) };

    ghost view = { λ r. map (λ v. v.items) r.left };
}

impl ContextReader {
    /// A reader that begins at the back of each list, in which numbers stand as `kept_number` keeps them. It
    /// takes no memory.
    pub fn new(lists: [Vec<u8>; CONTEXTS]) -> ContextReader
        ensures { result ≡ map (λ v. v.items) lists }
    {
        ContextReader { left: lists }
    }

    /// How many of so many symbols can come: the first, and one for each number that is left in the lists.
    pub fn most(&self, symbols: u32) -> u32
        ensures { result ≡ min symbols (suc (sum_by length self.now)) }
    {
        self.count_up_to(symbols).saturating_add(1).min(symbols)
    }

    /// The next symbol: the last one left in the context of this degree, which is that of the vertex at
    /// which the top side starts. Without a degree it is E, the first symbol, which isn't in the lists (Draco
    /// Bitstream Specification 2.2, Edgebreaker valence traversal). ContextEmpty where nothing is left in the
    /// context, BadSymbol where the last number left there stands for no symbol; then the reader stays as it
    /// was. It takes no memory.
    pub fn next(&mut self, degree: Option<u32>) -> Result<Symbol, Kind>
        ensures draws { DrawsSymbol (taken_at degree self.old) self.old self.new result }
        ensures fewer { IfSome degree (λ d. OnOk result (sum_by length self.new < sum_by length self.old)) }
    {
        match degree {
            None => Ok(Symbol::E),
            Some(degree) => self.next_in(context_of_degree(degree)),
        }
    }
}

impl ContextReader {
    /// How many numbers are left in all lists together; `most` where there are more.
    fn count_up_to(&self, most: u32) -> u32
        ensures { result ≡ min most (sum_by length self.now) }
    {
        let mut count = 0u32;
        for list in self.left.as_slice() {
            count = added_up_to(most, count, list.len());
        }
        count
    }

    /// The last number that is left in a context; None where none is.
    fn last(&self, context: usize) -> Option<u8>
        requires { context < CONTEXTS }
        ensures { result ≡ last_of (get_or self.now context []) }
    {
        self.left[context].as_slice().last().copied()
    }

    /// Takes the last number off the list of a context.
    fn take_last(&mut self, context: usize)
        requires { context < CONTEXTS }
        ensures { self.new ≡ set self.old context (all_but_last (get_or self.old context [])) }
    {
        let _last = self.left[context].pop();
    }

    /// The next symbol of a context.
    fn next_in(&mut self, context: usize) -> Result<Symbol, Kind>
        requires { context < CONTEXTS }
        ensures draws { DrawsSymbol (symbol_taken context self.old) self.old self.new result }
        ensures fewer { OnOk result (sum_by length self.new < sum_by length self.old) }
    {
        let Some(number) = self.last(context) else {
            return Err(Kind::ContextEmpty);
        };
        let Some(symbol) = symbol_of_number(number) else {
            return Err(Kind::BadSymbol);
        };
        self.take_last(context);
        Ok(symbol)
    }
}

/// A count and so many more; `most` where they are more.
fn added_up_to(most: u32, count: u32, more: usize) -> u32
    requires { count ≤ most }
    ensures { result ≡ min most (count + more) }
{
    count + more.min((most - count) as usize) as u32
}
