//! Reading the lists of valence contexts.

ghost use Rattle.std.specs.Prelude.{◌≡◌, ◌≤◌, IfOk};
ghost use Rattle.drc_base.specs.declared.limits.TheConstants.{MAX_FACES as most_faces};
ghost use Rattle.drc_bits.specs.Reading.{Gives, many_at};
ghost use Rattle.symbol_coding.specs.Opened.{values_of};
ghost use Rattle.eb_valence.specs.declared.context_lists.TheConstants.{CONTEXTS};
ghost use Rattle.eb_valence.specs.Reading.{kept_list};
ghost use Rattle.eb_section.specs.KeptLists.{kept_list_at};

use crate::opening::read_count;
use drc_base::{Kind, Memory, Refusal};
use drc_bits::Cursor;
use eb_valence::{ContextReader, kept_number};
use std::alloc::{AllocError, Global};
use symbol_coding::{CodedSymbols, Symbols, open_symbols};

/// Keeps coded symbols as bytes, each as it comes.
fn kept_coded(alloc: Global, symbols: CodedSymbols<'_>) -> Result<Vec<u8>, Memory>
    ensures { IfOk result (λ v. v.items ≡ kept_list symbols.entry) }
{
    let mut symbols = symbols;
    let n = symbols.len();
    let mut list = Vec::with_capacity(alloc, n as usize)?;
    for _k in 0..n {
        list.push_reserved(kept_number(symbols.next()));
    }
    Ok(list)
}

/// Keeps the numbers of a list as bytes.
fn kept_listed(alloc: Global, numbers: &[u32]) -> Result<Vec<u8>, AllocError>
    ensures { IfOk result (λ v. v.items ≡ kept_list numbers.now) }
{
    numbers.iter().map(|n| kept_number(*n)).collect(alloc)
}

/// Keeps the numbers of a block as bytes.
fn kept_symbols(alloc: Global, symbols: Symbols<'_>) -> Result<Vec<u8>, Memory>
    ensures { IfOk result (λ v. v.items ≡ kept_list (values_of symbols.entry)) }
{
    match symbols {
        Symbols::Coded(symbols) => kept_coded(alloc, symbols),
        Symbols::Listed(numbers) => Ok(kept_listed(alloc, &numbers)?),
    }
}

/// Reads the numbers of one context, and keeps them as bytes: how many there are, `Count` where they are
/// more than all symbols, and a block of symbols, of which any number may be more than stands for one.
#[tactic(auto, unfolding(crate::specs::Connectivity::list_at, crate::specs::KeptLists::kept_list_at))]
fn read_list(alloc: Global, c: &mut Cursor<'_>, symbols: u32) -> Result<Vec<u8>, Refusal>
    requires { symbols ≤ most_faces }
    ensures { Gives (λ v. v.items) (kept_list_at symbols c.old) c.new result }
{
    let count = read_count(c, symbols, Kind::Count)?;
    let numbers = open_symbols(alloc, c, count, 1)?;
    Ok(kept_symbols(alloc, numbers)?)
}

/// Reads the numbers of all contexts, one context behind another.
#[tactic(auto, unfolding(drc_bits::specs::Reading::many_at))]
pub(crate) fn read_contexts(
    alloc: Global,
    c: &mut Cursor<'_>,
    symbols: u32,
) -> Result<ContextReader, Refusal>
    requires { symbols ≤ most_faces }
    ensures { Gives (λ lists. lists) (many_at (kept_list_at symbols) CONTEXTS c.old) c.new result }
{
    let a = read_list(alloc, c, symbols)?;
    let b = read_list(alloc, c, symbols)?;
    let d = read_list(alloc, c, symbols)?;
    let e = read_list(alloc, c, symbols)?;
    let f = read_list(alloc, c, symbols)?;
    let g = read_list(alloc, c, symbols)?;
    Ok(ContextReader::new([a, b, d, e, f, g]))
}
