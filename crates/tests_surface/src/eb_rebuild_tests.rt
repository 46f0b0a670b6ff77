//! Worked surfaces and hostile streams, rebuilt by links and by rows.

ghost use Rattle.std.specs.Prelude.{◌≡◌, ◌<◌, ◌≤◌, length, All, OnOk, IsTrue};
ghost use Rattle.drc_base.specs.declared.limits.TheConstants.{MAX_FACES as most_faces};
ghost use Rattle.eb_machine.specs.Events.{IsEventOf};

use corner_table::Symbol::{C, E, L, R as Right, S};
use corner_table::{Event, FREE, Steps, Symbol};
use drc_base::{Fault, Kind, MAX_FACES, Refusal};
use eb_rebuild::{Built, LinkRebuild, Rebuild};
use eb_rows::RowRebuild;
use std::alloc::Global;
use std::marker::Brand;
use std::process::Abort;
use std::sync::ledger::{Blank, Ledger};
use worked_surfaces::{RING_DECODED, TETRAHEDRON_DECODED, TORUS_DECODED, has_entries};

/// The symbols of a ring with a hole, as they are decoded.
const RING_SYMBOLS: [Symbol; 6] = [E, Right, L, Right, L, S];

/// What keeps the boundary.
#[derive(Clone, Copy)]
enum By {
    Links,
    Rows,
}

/// Takes symbols, for which there is room, and no more than are declared.
fn take_all<R: Rebuild<L>, L: Ledger>(
    machine: &mut R,
    symbols: &[Symbol],
    steps: &mut Steps<L>,
) -> Result<(), Refusal>
    requires live { IsTrue (R.live machine.old) }
    requires none { (R.state machine.old).built ≡ 0 }
    requires unclosed { (R.state machine.old).closes ≡ 0 }
    requires few { length symbols.now ≤ (R.plan machine.old).symbols }
    requires room { length symbols.now ≤ R.room machine.old }
    ensures live { OnOk result (IsTrue (R.live machine.new)) }
    ensures unclosed { OnOk result ((R.state machine.new).closes ≡ 0) }
    ensures built { OnOk result ((R.state machine.new).built ≡ length symbols.now) }
    ensures plan { OnOk result (R.plan machine.new ≡ R.plan machine.old) }
    ensures room { OnOk result (R.room machine.new ≡ R.room machine.old) }
    ensures degrees { OnOk result (R.has_degrees machine.new ≡ R.has_degrees machine.old) }
{
    for symbol in symbols {
        match machine.symbol(*symbol, steps) {
            Ok(()) => (),
            Err(refusal) => return Err(refusal),
        }
    }
    Ok(())
}

/// Closes all sides that wait, each by its bit, with room for all declared faces.
fn close_all<R: Rebuild<L>, L: Ledger>(
    machine: &mut R,
    bits: &[bool],
    steps: &mut Steps<L>,
) -> Result<(), Refusal>
    requires live { IsTrue (R.live machine.old) }
    requires all { (R.plan machine.old).symbols ≤ (R.state machine.old).built }
    requires room { (R.plan machine.old).faces ≤ R.room machine.old }
    ensures live { OnOk result (IsTrue (R.live machine.new)) }
    ensures all { OnOk result ((R.plan machine.new).symbols ≤ (R.state machine.new).built) }
    ensures none { OnOk result (length (R.state machine.new).stack ≡ 0) }
{
    let mut number = 0usize;
    'closing: while machine.pending() > 0 {
        let bit = number < bits.len() && bits[number];
        match machine.close(bit, steps) {
            Ok(()) => (),
            Err(refusal) => return Err(refusal),
        }
        number = number.saturating_add(1);
    }
    Ok(())
}

/// Takes all symbols and closes all sides by a machine that has done nothing yet, with room for all declared faces.
fn finished<R: Rebuild<L>, L: Ledger>(
    alloc: Global,
    machine: R,
    symbols: &[Symbol],
    bits: &[bool],
    steps: &mut Steps<L>,
) -> Result<Built, Refusal>
    requires live { IsTrue (R.live machine) }
    requires none { (R.state machine).built ≡ 0 }
    requires unclosed { (R.state machine).closes ≡ 0 }
    requires all { length symbols.now ≡ (R.plan machine).symbols }
    requires few { length symbols.now ≤ R.room machine }
    requires room { (R.plan machine).faces ≤ R.room machine }
{
    let mut machine = machine;
    take_all(&mut machine, symbols, steps)?;
    close_all(&mut machine, bits, steps)?;
    machine.finish(alloc, steps)
}

/// A whole rebuilding.
fn rebuilt<L: Ledger>(
    by: By,
    alloc: Global,
    plan: (u32, u32),
    symbols: &[Symbol],
    events: Vec<Event>,
    bits: &[bool],
    blank: Blank,
) -> Result<Built, Refusal>
    requires faces { plan.0 ≤ most_faces }
    requires symbols { length symbols.now ≤ plan.0 }
    requires events { All (IsEventOf (length symbols.now)) events.items }
    requires name { blank.name ≡ L.name }
    requires parts { blank.parts ≡ L.parts }
    requires some { 0 < L.parts }
{
    let mut steps = Steps::<L>::new(blank);
    let count = symbols.len() as u32;
    match by {
        By::Links => {
            let machine = LinkRebuild::<L>::new(
                alloc, plan.0, plan.1, count, plan.0, events, false,
            )?;
            finished(alloc, machine, symbols, bits, &mut steps)
        }
        By::Rows => {
            let machine = <RowRebuild as Rebuild<L>>::new(
                alloc, plan.0, plan.1, count, plan.0, events, false,
            )?;
            finished(alloc, machine, symbols, bits, &mut steps)
        }
    }
}

/// The events of a stream of so many symbols, each of which has to be one of it.
fn events_of(rt: &impl Abort, alloc: Global, listed: &[Event], symbols: u32) -> Vec<Event>
    ensures { All (IsEventOf symbols) result.items }
{
    let mut events = Vec::new(alloc);
    for event in listed {
        let event = *event;
        assert!(rt; event.source < symbols && event.split <= event.source);
        events.push(event).expect(rt, "room");
    }
    events
}

/// A stream: how many faces and vertices it declares, its symbols, its events, and the bits of its closes.
struct Stream {
    plan: (u32, u32),
    symbols: &'static [Symbol],
    events: &'static [Event],
    bits: &'static [bool],
}

/// What a stream is rebuilt to.
fn rebuilt_from(rt: &impl Abort, by: By, alloc: Global, stream: &Stream) -> Result<Built, Refusal> {
    let symbols = stream.symbols;
    assert!(rt; stream.plan.0 <= MAX_FACES && symbols.len() <= stream.plan.0 as usize);
    let events = events_of(rt, alloc, stream.events, symbols.len() as u32);
    rebuilt::<Brand>(
        by,
        alloc,
        stream.plan,
        symbols,
        events,
        stream.bits,
        Blank::new(1),
    )
}

/// The rebuilding has the table that is listed.
fn has_table(rt: &impl Abort, done: Result<Built, Refusal>, across: &[u32]) {
    match done {
        Ok(built) => assert!(rt; has_entries(built.table(), across)),
        Err(_) => assert!(rt; false, "refused"),
    }
}

/// The kind and the number of a fault, or none.
fn told(rt: &impl Abort, done: Result<Built, Refusal>) -> Option<(Kind, u64)> {
    match done {
        Ok(_) => None,
        Err(Refusal::Fault(f)) => Some((f.kind, f.at)),
        Err(Refusal::Memory) => {
            assert!(rt; false, "memory");
            None
        }
    }
}

/// Streams, and the tables of the surfaces that they give.
static SURFACES: [(Stream, &[u32]); 5] = [
    // A tetrahedron with an interior start face.
    (
        Stream {
            plan: (4, 4),
            symbols: &[E, Right, C],
            events: &[],
            bits: &[true],
        },
        &TETRAHEDRON_DECODED,
    ),
    // A ring with a hole, which needs an event.
    (
        Stream {
            plan: (6, 7),
            symbols: &RING_SYMBOLS,
            events: &[Event {
                source: 5,
                split: 0,
                right: true,
            }],
            bits: &[false],
        },
        &RING_DECODED,
    ),
    // A torus, which needs two.
    (
        Stream {
            plan: (14, 10),
            symbols: &[E, E, L, S, Right, L, S, S, Right, C, C, C, C],
            events: &[
                Event {
                    source: 11,
                    split: 6,
                    right: false,
                },
                Event {
                    source: 12,
                    split: 5,
                    right: true,
                },
            ],
            bits: &[true],
        },
        &TORUS_DECODED,
    ),
    // Two faces apart, and a third at one of them.
    (
        Stream {
            plan: (2, 6),
            symbols: &[E, E],
            events: &[],
            bits: &[],
        },
        &[FREE, FREE, FREE, FREE, FREE, FREE],
    ),
    (
        Stream {
            plan: (3, 7),
            symbols: &[E, E, Right],
            events: &[],
            bits: &[],
        },
        &[FREE, FREE, FREE, 8, FREE, FREE, FREE, FREE, 3],
    ),
];

/// Streams with one fault each at a symbol.
static FAULTS_AT_SYMBOLS: [(Stream, (Kind, u64)); 7] = [
    // A ring with a hole, without its event.
    (
        Stream {
            plan: (6, 7),
            symbols: &RING_SYMBOLS,
            events: &[],
            bits: &[false],
        },
        (Kind::NoActive, 5),
    ),
    // An S without an event, over a stack of one side.
    (
        Stream {
            plan: (2, 5),
            symbols: &[E, S],
            events: &[],
            bits: &[],
        },
        (Kind::NoActive, 1),
    ),
    // Two events that keep a side for one S.
    (
        Stream {
            plan: (6, 7),
            symbols: &RING_SYMBOLS,
            events: &[
                Event {
                    source: 5,
                    split: 0,
                    right: true,
                },
                Event {
                    source: 5,
                    split: 0,
                    right: true,
                },
            ],
            bits: &[],
        },
        (Kind::Taken, 0),
    ),
    // A side that is kept is one with the top.
    (
        Stream {
            plan: (2, 4),
            symbols: &[E, S],
            events: &[Event {
                source: 1,
                split: 0,
                right: false,
            }],
            bits: &[],
        },
        (Kind::SamePoint, 1),
    ),
    // The kept side is glued when it is needed.
    (
        Stream {
            plan: (3, 4),
            symbols: &[E, C, S],
            events: &[Event {
                source: 2,
                split: 0,
                right: false,
            }],
            bits: &[],
        },
        (Kind::Gone, 2),
    ),
    // An event that is due before its symbol.
    (
        Stream {
            plan: (3, 5),
            symbols: &[E, C, Right],
            events: &[Event {
                source: 1,
                split: 0,
                right: false,
            }],
            bits: &[],
        },
        (Kind::EventOrder, 2),
    ),
    // The top side is alone in its loop.
    (
        Stream {
            plan: (4, 3),
            symbols: &[E, C, C, C],
            events: &[],
            bits: &[],
        },
        (Kind::Alone, 3),
    ),
];

/// Streams with one fault each at a close or at the end.
static FAULTS_AT_ENDS: [(Stream, (Kind, u64)); 9] = [
    // An interior face over a loop of four sides.
    (
        Stream {
            plan: (3, 4),
            symbols: &[E, Right],
            events: &[],
            bits: &[true],
        },
        (Kind::Loop, 2),
    ),
    // The same over a ring, with the event of the other side.
    (
        Stream {
            plan: (6, 7),
            symbols: &RING_SYMBOLS,
            events: &[Event {
                source: 5,
                split: 0,
                right: false,
            }],
            bits: &[true],
        },
        (Kind::Loop, 6),
    ),
    // A side that waits to be closed is one that an event kept, and that an S glued.
    (
        Stream {
            plan: (5, 20),
            symbols: &[E, E, S, C],
            events: &[Event {
                source: 3,
                split: 1,
                right: true,
            }],
            bits: &[false, true],
        },
        (Kind::Gone, 5),
    ),
    // An interior face more than are declared.
    (
        Stream {
            plan: (3, 4),
            symbols: &[E, Right, C],
            events: &[],
            bits: &[true],
        },
        (Kind::FaceCount, 3),
    ),
    // Two corners of a face are one vertex, with a lone side glued; and the same without the last
    // symbol, its loop to be filled.
    (
        Stream {
            plan: (5, 9),
            symbols: &[E, C, C, Right, C],
            events: &[],
            bits: &[],
        },
        (Kind::Degenerate, 2),
    ),
    (
        Stream {
            plan: (4, 9),
            symbols: &[E, C, C, Right],
            events: &[],
            bits: &[true],
        },
        (Kind::Loop, 4),
    ),
    // The same face by fewer symbols.
    (
        Stream {
            plan: (3, 3),
            symbols: &[E, C, C],
            events: &[],
            bits: &[false],
        },
        (Kind::Degenerate, 2),
    ),
    // Fewer faces than are declared, and more vertices.
    (
        Stream {
            plan: (2, 3),
            symbols: &[E],
            events: &[],
            bits: &[false],
        },
        (Kind::FaceCount, 1),
    ),
    (
        Stream {
            plan: (1, 2),
            symbols: &[E],
            events: &[],
            bits: &[false],
        },
        (Kind::VertexCount, 3),
    ),
];

/// Streams give the tables of their surfaces.
fn rebuilds(rt: &impl Abort, by: By, alloc: Global) {
    for (stream, across) in SURFACES.iter() {
        has_table(rt, rebuilt_from(rt, by, alloc, stream), across);
    }
}

/// Streams are refused, each for the fault that is listed.
fn refuses(rt: &impl Abort, by: By, alloc: Global, faults: &[(Stream, (Kind, u64))]) {
    for (stream, fault) in faults {
        assert!(rt; told(rt, rebuilt_from(rt, by, alloc, stream)) == Some(*fault));
    }
}

/// The degree of the vertex at which the top side starts, after some symbols that a machine takes which has
/// done nothing yet.
fn degree_by<R: Rebuild<L>, L: Ledger>(
    machine: R,
    symbols: &[Symbol],
    steps: &mut Steps<L>,
) -> Result<u32, Refusal>
    requires live { IsTrue (R.live machine) }
    requires degrees { IsTrue (R.has_degrees machine) }
    requires none { (R.state machine).built ≡ 0 }
    requires unclosed { (R.state machine).closes ≡ 0 }
    requires few { length symbols.now ≤ (R.plan machine).symbols }
    requires room { length symbols.now ≤ R.room machine }
{
    let mut machine = machine;
    take_all(&mut machine, symbols, steps)?;
    Ok(machine.degree())
}

/// The same of a machine for as many faces and symbols as may be declared, with room for only those that come.
fn degree_after<L: Ledger>(
    by: By,
    alloc: Global,
    symbols: &[Symbol],
    events: Vec<Event>,
    blank: Blank,
) -> Result<u32, Refusal>
    requires symbols { length symbols.now ≤ most_faces }
    requires events { All (IsEventOf most_faces) events.items }
    requires name { blank.name ≡ L.name }
    requires parts { blank.parts ≡ L.parts }
    requires some { 0 < L.parts }
{
    let count = symbols.len() as u32;
    let mut steps = Steps::<L>::new(blank);
    match by {
        By::Links => {
            let machine = LinkRebuild::<L>::new(
                alloc, MAX_FACES, 9, MAX_FACES, count, events, true,
            )?;
            degree_by(machine, symbols, &mut steps)
        }
        By::Rows => {
            let machine = <RowRebuild as Rebuild<L>>::new(
                alloc, MAX_FACES, 9, MAX_FACES, count, events, true,
            )?;
            degree_by(machine, symbols, &mut steps)
        }
    }
}

/// The same, without events.
fn degree_of(by: By, alloc: Global, symbols: &[Symbol]) -> Result<u32, Refusal>
    requires { length symbols.now ≤ most_faces }
{
    degree_after::<Brand>(by, alloc, symbols, Vec::new(alloc), Blank::new(1))
}

/// Degrees after a few symbols.
fn counts_degrees(rt: &impl Abort, by: By, alloc: Global) {
    assert!(rt; degree_of(by, alloc, &[E]) == Ok(2));
    assert!(rt; degree_of(by, alloc, &[E, Right]) == Ok(3));
    assert!(rt; degree_of(by, alloc, &[E, Right, L]) == Ok(2));
    assert!(rt; degree_of(by, alloc, &[E, Right, C]) == Ok(3));
    // The second side is alone in its loop, and its vertex takes in the first side's.
    assert!(rt; degree_of(by, alloc, &[E, C, C, E, S]) == Ok(8));
}

/// So many events of the first symbol that is decoded, each of which keeps a side for the last of as many
/// symbols as may be declared.
fn far_events(rt: &impl Abort, alloc: Global, count: usize) -> Vec<Event>
    ensures { All (IsEventOf most_faces) result.items }
{
    let event = Event {
        source: MAX_FACES - 1,
        split: 0,
        right: true,
    };
    vec![in alloc; event; count].expect(rt, "room")
}

/// A side is kept for a symbol that can't come, and for none twice.
fn keeps_far_sides(rt: &impl Abort, by: By, alloc: Global) {
    let one = far_events(rt, alloc, 1);
    let done = degree_after::<Brand>(by, alloc, &[Symbol::E], one, Blank::new(1));
    assert!(rt; done == Ok(2));
    let two = far_events(rt, alloc, 2);
    let done = degree_after::<Brand>(by, alloc, &[Symbol::E], two, Blank::new(1));
    assert!(rt; done == Err(Refusal::Fault(Fault::new(Kind::Taken, 0))));
}

#[test]
fn far_sides_are_kept(rt: HostRuntime) {
    keeps_far_sides(&rt, By::Links, rt.alloc());
    keeps_far_sides(&rt, By::Rows, rt.alloc());
}

#[test]
fn links_count_degrees(rt: HostRuntime) {
    counts_degrees(&rt, By::Links, rt.alloc());
}

#[test]
fn rows_count_degrees(rt: HostRuntime) {
    counts_degrees(&rt, By::Rows, rt.alloc());
}

#[test]
fn links_rebuild_and_refuse(rt: HostRuntime) {
    rebuilds(&rt, By::Links, rt.alloc());
    refuses(&rt, By::Links, rt.alloc(), &FAULTS_AT_SYMBOLS);
    refuses(&rt, By::Links, rt.alloc(), &FAULTS_AT_ENDS);
}

#[test]
fn rows_rebuild_and_refuse(rt: HostRuntime) {
    rebuilds(&rt, By::Rows, rt.alloc());
    refuses(&rt, By::Rows, rt.alloc(), &FAULTS_AT_SYMBOLS);
    refuses(&rt, By::Rows, rt.alloc(), &FAULTS_AT_ENDS);
}
