//! The numbers of symbols and of contexts.

ghost use Rattle.std.specs.Prelude.{◌≡◌, ◌<◌};
ghost use Rattle.eb_valence.specs.Numbers.{symbol_number, symbol_numbered, kept_number, context_of};

use crate::context_lists::CONTEXTS;
use corner_table::Symbol;

/// The greatest number that is kept as it is: it stands for no symbol, and so does each that is greater.
pub const NUMBER_CAP: u32 = 255;

/// The least degree that has a context of its own.
const LEAST_DEGREE: u32 = 2;

/// The greatest degree that has a context of its own.
const MOST_DEGREE: u32 = 7;

/// The number that stands for a symbol.
pub(crate) fn number_of_symbol(symbol: Symbol) -> u32
    ensures { result ≡ symbol_number symbol }
{
    match symbol {
        Symbol::C => 0,
        Symbol::S => 1,
        Symbol::L => 2,
        Symbol::R => 3,
        Symbol::E => 4,
    }
}

/// The symbol that a number stands for; None where it stands for none.
pub(crate) fn symbol_of_number(number: u8) -> Option<Symbol>
    ensures { result ≡ symbol_numbered number }
{
    match number {
        0 => Some(Symbol::C),
        1 => Some(Symbol::S),
        2 => Some(Symbol::L),
        3 => Some(Symbol::R),
        4 => Some(Symbol::E),
        _ => None,
    }
}

/// A number as a reader keeps it: `NUMBER_CAP` for each that is greater.
#[inline(always)]
pub fn kept_number(number: u32) -> u8
    ensures { result ≡ kept_number number }
{
    number.min(NUMBER_CAP) as u8
}

/// The context of a degree.
pub(crate) fn context_of_degree(degree: u32) -> usize
    ensures context { result ≡ context_of degree }
    ensures within { result < CONTEXTS }
{
    (degree.max(LEAST_DEGREE).min(MOST_DEGREE) - LEAST_DEGREE) as usize
}
