//! Rebuilding a surface from a source of symbols and a block of start bits.

ghost use Rattle.std.specs.Prelude.{◌≡◌, suc, ◌+◌, ◌*◌, ◌≤◌, min, All, IfOk, IsTrue, length, reverse};
ghost use Rattle.drc_base.specs.declared.limits.TheConstants.{MAX_FACES as most_faces};
ghost use Rattle.drc_base.specs.Refusals.{Answers};
ghost use Rattle.rans_binary.specs.Blocks.{bit_of};
ghost use Rattle.eb_machine.specs.Machine.{close_all, start};
ghost use Rattle.eb_machine.specs.Events.{IsEventOf};
ghost use Rattle.eb_section.specs.Opening.{plan_of};
ghost use Rattle.eb_section.specs.Calls.{most_calls, faces_from};
ghost use Rattle.eb_section.specs.Feeding.{fed, rebuilt, EndsAs};

use crate::opening::Opening;
use crate::sources::SymbolSource;
use corner_table::{Event, Steps};
use drc_base::{MAX_POINTS, Refusal};
use eb_rebuild::{Built, LinkRebuild, Rebuild};
use rans_binary::BitBlock;
use std::alloc::Global;
use std::sync::ledger::Ledger;

/// How many faces can be built at most of those declared, where so many symbols can come: each symbol
/// builds one, and so does each close of a side that waits, of which there are no more than symbols.
fn most_built(faces: u32, symbols: u32) -> u32
    requires limit { faces ≤ most_faces }
    requires few { symbols ≤ faces }
    ensures { result ≡ faces_from faces symbols }
{
    faces.min(2 * symbols)
}

/// Feeds the machine so many symbols of a source, which are all that it is to take, or refuses with the
/// first fault: one of the source comes behind those of the symbols before.
#[inline(always)]
fn take_symbols<R: Rebuild<L>, F: SymbolSource, L: Ledger>(
    machine: R,
    source: F,
    count: u32,
    steps: &mut Steps<L>,
) -> Result<R, Refusal>
    requires live { IsTrue (R.live machine) }
    requires none { (R.state machine).built ≡ 0 }
    requires unclosed { (R.state machine).closes ≡ 0 }
    requires all { (R.plan machine).symbols ≡ count }
    requires degrees { IsTrue F.asks → IsTrue (R.has_degrees machine) }
    requires room { min count (suc (F.left source)) ≤ R.room machine }
    ensures fed { Answers R.state (fed F.gives count count source (R.state machine)) result }
    ensures live { IfOk result (λ m. IsTrue (R.live m)) }
    ensures plan { IfOk result (λ m. R.plan m ≡ R.plan machine) }
    ensures linked { IfOk result (λ m. R.linked m ≡ R.linked machine) }
    ensures built { IfOk result (λ m. (R.state m).built ≡ count) }
    ensures unclosed { IfOk result (λ m. (R.state m).closes ≡ 0) }
    ensures room { IfOk result (λ m. R.room m ≡ R.room machine) }
    ensures came { IfOk result (λ m. count ≤ suc (F.left source)) }
    ensures cost { IsTrue (R.linked machine) → steps.new ≤ steps.old + 8 * min count (suc (F.left source)) }
{
    let mut machine = machine;
    let mut source = source;
    for number in 0..count {
        let symbol = source.draw(&machine, number)?;
        machine.symbol(symbol, steps)?;
    }
    Ok(machine)
}

/// Closes all sides that wait, each by the next bit of a block, or refuses with the first fault.
fn close_sides<R: Rebuild<L>, L: Ledger>(
    machine: R,
    starts: BitBlock<'_>,
    steps: &mut Steps<L>,
) -> Result<R, Refusal>
    requires live { IsTrue (R.live machine) }
    requires all { (R.plan machine).symbols ≤ (R.state machine).built }
    requires within { (R.state machine).built ≤ (R.plan machine).faces }
    requires room { min (R.plan machine).faces (2 * (R.state machine).built) ≤ R.room machine }
    requires unclosed { (R.state machine).closes ≡ 0 }
    ensures closed { Answers R.state (close_all (R.plan machine) (bit_of starts.entry) (length (R.state machine).stack) (R.state machine)) result }
    ensures live { IfOk result (λ m. IsTrue (R.live m)) }
    ensures plan { IfOk result (λ m. R.plan m ≡ R.plan machine) }
    ensures linked { IfOk result (λ m. R.linked m ≡ R.linked machine) }
    ensures built { IfOk result (λ m. (R.plan machine).symbols ≤ (R.state m).built) }
    ensures none { IfOk result (λ m. length (R.state m).stack ≡ 0) }
    ensures room { IfOk result (λ m. R.room m ≡ R.room machine) }
    ensures cost { IsTrue (R.linked machine) → steps.new + 8 * (R.state machine).built ≤ steps.old + 8 * min (R.plan machine).faces (2 * (R.state machine).built) + 4 }
    ensures same { length (R.state machine).stack ≡ 0 → steps.new ≡ steps.old }
{
    let mut machine = machine;
    let mut starts = starts;
    let waiting = machine.pending();
    for number in 0..waiting {
        let interior = starts.next();
        machine.close(interior, steps)?;
    }
    Ok(machine)
}

/// Rebuilds a surface by a machine that has done nothing yet: its symbols from a source, then a start bit
/// for each side that is left, then the tests at the end.
fn rebuild<R: Rebuild<L>, F: SymbolSource, L: Ledger>(
    alloc: Global,
    machine: R,
    source: F,
    starts: BitBlock<'_>,
    count: u32,
    steps: &mut Steps<L>,
) -> Result<Built, Refusal>
    requires live { IsTrue (R.live machine) }
    requires none { (R.state machine).built ≡ 0 }
    requires unclosed { (R.state machine).closes ≡ 0 }
    requires empty { length (R.state machine).stack ≡ 0 }
    requires all { (R.plan machine).symbols ≡ count }
    requires within { count ≤ (R.plan machine).faces }
    requires degrees { IsTrue F.asks → IsTrue (R.has_degrees machine) }
    requires room { min (R.plan machine).faces (2 * min count (suc (F.left source))) ≤ R.room machine }
    ensures ends { EndsAs (rebuilt F.gives (R.plan machine) source starts.entry (R.state machine)) result }
    ensures faces { IfOk result (λ b. b.table.faces ≡ (R.plan machine).faces) }
    ensures room { IfOk result (λ b. length b.table.entries ≤ 3 * (R.plan machine).faces) }
    ensures linked { IfOk result (λ b. b.linked ≡ R.linked machine) }
    ensures cost { IsTrue (R.linked machine) → steps.new ≤ steps.old + most_calls (R.room machine) }
{
    let grown = take_symbols(machine, source, count, steps)?;
    let closed = close_sides(grown, starts, steps)?;
    closed.finish(alloc, steps)
}

/// Rebuilds by links the surface that the opening of the section, its events, a source of symbols and a
/// block of start bits give. Room is taken for no more faces than the symbols that can come may build, and
/// for the degrees of vertices only where the source asks for them.
pub(crate) fn rebuild_linked<F: SymbolSource, L: Ledger>(
    alloc: Global,
    opening: Opening,
    events: Vec<Event>,
    source: F,
    starts: BitBlock<'_>,
    steps: &mut Steps<L>,
) -> Result<Built, Refusal>
    requires vertices { opening.vertices ≤ MAX_POINTS }
    requires faces { opening.faces ≤ most_faces }
    requires symbols { opening.symbols ≤ opening.faces }
    requires splits { opening.splits ≤ opening.symbols }
    requires events { All (IsEventOf opening.symbols) events.items }
    ensures ends { EndsAs (rebuilt F.gives (plan_of opening) source starts.entry (start (reverse events.items))) result }
    ensures faces { IfOk result (λ b. b.table.faces ≡ opening.faces) }
    ensures room { IfOk result (λ b. length b.table.entries ≤ 3 * opening.faces) }
    ensures linked { IfOk result (λ b. IsTrue b.linked) }
    ensures cost { steps.new ≤ steps.old + most_calls opening.faces }
    ensures read_cost { steps.new ≤ steps.old + most_calls (faces_from opening.faces (min opening.symbols (suc (F.whole source)))) }
{
    let created = opening.vertices + opening.splits;
    let most = most_built(opening.faces, source.most(opening.symbols));
    let degrees = source.asks_degrees();
    let machine = LinkRebuild::<L>::new(
        alloc,
        opening.faces,
        created,
        opening.symbols,
        most,
        events,
        degrees,
    )?;
    rebuild(alloc, machine, source, starts, opening.symbols, steps)
}
