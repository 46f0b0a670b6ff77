//! Noting symbols in the lists of their contexts.
//!
//! The symbols are fed to the machine of reverse decoding, the last first; before each the degree of the
//! vertex at which the top side starts gives the context. What was noted then stands from back to front.

ghost use Rattle.std.specs.Prelude.{◌≡◌, ◌==◌, ℕ, ◌+◌, ◌<◌, ◌≤◌, List, All, IfOk, OnOk, length, map, reverse, replicate, sum_by, [], IsTrue, true};
ghost use Rattle.drc_base.specs.declared.limits.TheConstants.{MAX_FACES as most_faces};
ghost use Rattle.eb_machine.specs.Machine.{start};
ghost use Rattle.eb_machine.specs.Events.{IsEventOf};
ghost use Rattle.eb_rebuild.specs.Calls.{symbol_calls};
ghost use Rattle.eb_valence.specs.Contexts.{context_coded_at, coded, context_lists};
ghost use Rattle.eb_valence.specs.Noting.{noted, TakesWord};

use crate::context_lists::ContextLists;
use crate::numbers::{context_of_degree, number_of_symbol};
use corner_table::{Event, Steps, Symbol};
use drc_base::Memory;
use eb_rebuild::{LinkRebuild, Rebuild};
use std::alloc::Global;
use std::sync::ledger::Ledger;

/// Notes the symbol that the machine takes next, unless it is the first.
fn note<R: Rebuild<L>, L: Ledger>(
    lists: &mut ContextLists,
    machine: &R,
    symbol: Symbol,
    first: bool,
) -> Result<(), Memory>
    requires live { IsTrue (R.live machine.now) }
    requires unclosed { (R.state machine.now).closes ≡ 0 }
    requires degrees { IsTrue (R.has_degrees machine.now) }
    requires first { first ≡ ((R.state machine.now).built == 0) }
    ensures { OnOk result (lists.new ≡ noted lists.old (context_coded_at (R.state machine.now) symbol)) }
{
    if first {
        return Ok(());
    }
    let context = context_of_degree(machine.degree());
    lists.put(context, number_of_symbol(symbol))?;
    Ok(())
}

/// Notes all symbols in the order of decoding, each behind its list.
fn note_all<R: Rebuild<L>, L: Ledger>(
    lists: &mut ContextLists,
    mut machine: R,
    symbols: &[Symbol],
    steps: &mut Steps<L>,
) -> Result<(), Memory>
    requires live { IsTrue (R.live machine) }
    requires linked { IsTrue (R.linked machine) }
    requires none { (R.state machine).built ≡ 0 }
    requires unclosed { (R.state machine).closes ≡ 0 }
    requires degrees { IsTrue (R.has_degrees machine) }
    requires all { (R.plan machine).symbols ≡ length symbols.now }
    requires room { R.room machine ≡ length symbols.now }
    requires takes { TakesWord (length symbols.now) (reverse symbols.now) (R.state machine) }
    ensures lists { OnOk result (lists.new ≡ noted lists.old (coded (length symbols.now) (reverse symbols.now) (R.state machine))) }
    ensures cost { steps.new ≤ steps.old + sum_by symbol_calls symbols.now }
{
    for number in (0..symbols.len()).rev() {
        let symbol = symbols[number];
        note(lists, &machine, symbol, number + 1 == symbols.len())?;
        match machine.symbol(symbol, steps) {
            Ok(()) => {}
            Err(_) => unreachable!(),
        }
    }
    Ok(())
}

/// The lists of the contexts of symbols, in which they are coded (Draco Bitstream Specification 2.2,
/// Edgebreaker valence traversal): each symbol but the one that is decoded first stands in the list of the
/// degree of the vertex at which the machine's top side starts before it. Symbols and events are in the
/// order of the encoder; there are no more symbols than a mesh may have faces, and the machine of reverse
/// decoding, fed the last symbol first, meets no fault on them. It makes at most as many table calls as these
/// symbols take by their kinds; the degrees take none. Fails only when out of memory.
pub fn contexts_of<L: Ledger>(
    alloc: Global,
    symbols: &[Symbol],
    events: &[Event],
    steps: &mut Steps<L>,
) -> Result<ContextLists, Memory>
    requires few { length symbols.now ≤ most_faces }
    requires events { All (IsEventOf (length symbols.now)) events.now }
    requires takes { TakesWord (length symbols.now) (reverse symbols.now) (start (reverse events.now)) }
    ensures lists { IfOk result (λ lists. lists ≡ context_lists symbols.now events.now) }
    ensures cost { steps.new ≤ steps.old + sum_by symbol_calls symbols.now }
{
    let events = events.to_vec(alloc)?;
    let count = symbols.len() as u32;
    let machine = LinkRebuild::<L>::new(alloc, count, 0, count, count, events, true)?;
    let mut lists = ContextLists::none(alloc);
    note_all(&mut lists, machine, symbols, steps)?;
    Ok(lists.turned_round())
}
