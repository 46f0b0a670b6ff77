//! Surfaces are rebuilt from what their walks note: fed to the machine of reverse decoding, it gives the
//! table under the numbers of the order of decoding.

ghost use Rattle.std.specs.Prelude.{◌≡◌, ◌<◌, ◌≤◌, ℕ, All, OnOk, IsTrue, length};
ghost use Rattle.drc_base.specs.declared.limits.TheConstants.{MAX_FACES as most_faces};
ghost use Rattle.corner_table.specs.Carried.{IsRenumbering};
ghost use Rattle.corner_table.specs.Fans.{IsProper};
ghost use Rattle.corner_table.specs.Table.{gluing_of};
ghost use Rattle.eb_machine.specs.Events.{IsEventOf};

use corner_table::{SideTable, Steps, Symbol};
use drc_base::{Memory, Refusal};
use eb_rebuild::{Built, Rebuild};
use eb_rows::RowRebuild;
use eb_trace::{Traced, trace};
use pairing::pair;
use std::alloc::Global;
use std::marker::Brand;
use std::process::Abort;
use std::sync::ledger::{Blank, Ledger};
use std::test::Fail;
use worked_meshes::mesh_of;
use worked_surfaces::{BOOK, RING, SQUARE, TETRAHEDRON, TORUS, fan, grid};

/// How many of the symbols are S.
fn split_count(symbols: &[Symbol]) -> u32 {
    let mut count = 0u32;
    for symbol in symbols {
        if *symbol == Symbol::S {
            count = count.saturating_add(1);
        }
    }
    count
}

/// Takes all symbols, the last first.
fn take_all<R: Rebuild<L>, L: Ledger>(
    machine: &mut R,
    symbols: &[Symbol],
    steps: &mut Steps<L>,
) -> Result<(), Refusal>
    requires live { IsTrue (R.live machine.old) }
    requires none { (R.state machine.old).built ≡ 0 }
    requires unclosed { (R.state machine.old).closes ≡ 0 }
    requires all { (R.plan machine.old).symbols ≡ length symbols.now }
    requires room { length symbols.now ≤ R.room machine.old }
    ensures live { OnOk result (IsTrue (R.live machine.new)) }
    ensures plan { OnOk result (R.plan machine.new ≡ R.plan machine.old) }
    ensures room { OnOk result (R.room machine.new ≡ R.room machine.old) }
    ensures all { OnOk result ((R.plan machine.new).symbols ≤ (R.state machine.new).built) }
{
    for number in 0..symbols.len() {
        match machine.symbol(symbols[symbols.len() - 1 - number], steps) {
            Ok(()) => (),
            Err(refusal) => return Err(refusal),
        }
    }
    Ok(())
}

/// Closes all sides that wait, each by its bit, and answers how many.
fn close_all<R: Rebuild<L>, L: Ledger>(
    machine: &mut R,
    bits: &[bool],
    steps: &mut Steps<L>,
) -> Result<usize, Refusal>
    requires live { IsTrue (R.live machine.old) }
    requires all { (R.plan machine.old).symbols ≤ (R.state machine.old).built }
    requires room { (R.plan machine.old).faces ≤ R.room machine.old }
    ensures live { OnOk result (IsTrue (R.live machine.new)) }
    ensures all { OnOk result ((R.plan machine.new).symbols ≤ (R.state machine.new).built) }
    ensures none { OnOk result (length (R.state machine.new).stack ≡ 0) }
{
    let mut number = 0usize;
    'closing: while machine.pending() > 0 {
        let bit = number < bits.len() && bits[number];
        match machine.close(bit, steps) {
            Ok(()) => (),
            Err(refusal) => return Err(refusal),
        }
        number = number.saturating_add(1);
    }
    Ok(number)
}

/// A surface of this many faces, rebuilt from what its walk noted.
fn rebuilt<L: Ledger>(
    rt: &impl Abort,
    alloc: Global,
    faces: u32,
    traced: &Traced,
    blank: Blank,
) -> Result<Built, Refusal>
    requires faces { faces ≤ most_faces }
    requires name { blank.name ≡ L.name }
    requires parts { blank.parts ≡ L.parts }
    requires some { 0 < L.parts }
    requires few { length traced.now.symbols ≤ faces }
    requires events { All (IsEventOf (length traced.now.symbols)) traced.now.events }
{
    let symbols = traced.symbols.as_slice();
    let count = symbols.len() as u32;
    let events = traced.events.as_slice().to_vec(alloc)?;
    let created = traced.vertices.saturating_add(split_count(symbols));
    let mut steps = Steps::<L>::new(blank);
    let mut machine = <RowRebuild as Rebuild<L>>::new(
        alloc, faces, created, count, faces, events, false,
    )?;
    take_all(&mut machine, symbols, &mut steps)?;
    let starts = traced.starts.as_slice();
    let closed = close_all(&mut machine, starts, &mut steps)?;
    assert!(rt; closed == starts.len());
    machine.finish(alloc, &mut steps)
}

/// Whether two tables have the same entries.
fn have_same_entries<L: Ledger>(a: &SideTable, b: &SideTable, blank: Blank) -> bool
    requires name { blank.name ≡ L.name }
    requires parts { blank.parts ≡ L.parts }
    requires some { 0 < L.parts }
{
    let mut steps = Steps::<L>::new(blank);
    a.across(&mut steps) == b.across(&mut steps)
}

/// A table has so many vertices.
fn has_vertices<L: Ledger>(
    rt: &impl Abort,
    alloc: Global,
    table: &SideTable,
    vertices: u32,
    blank: Blank,
) -> Result<(), Memory>
    requires name { blank.name ≡ L.name }
    requires parts { blank.parts ≡ L.parts }
    requires some { 0 < L.parts }
{
    let mut steps = Steps::<L>::new(blank);
    let classes = table.label_vertices(alloc, &mut steps)?;
    assert!(rt; classes.count == vertices);
    Ok(())
}

/// A table under other numbers, by the rows that list its faces.
fn turned<L: Ledger>(
    alloc: Global,
    table: &SideTable,
    rows: &[(u32, u8)],
    blank: Blank,
) -> Result<SideTable, Memory>
    requires rows { IsRenumbering table.now.faces rows.now }
    requires name { blank.name ≡ L.name }
    requires parts { blank.parts ≡ L.parts }
    requires some { 0 < L.parts }
{
    let mut steps = Steps::<L>::new(blank);
    table.renumbered(alloc, rows, &mut steps)
}

/// What a walk noted of so many faces is rebuilt to a table that has the entries of this one and the walk's number
/// of vertices.
fn is_rebuilt(
    rt: &impl Abort,
    alloc: Global,
    faces: u32,
    traced: &Traced,
    due: &SideTable,
) -> Result<(), Refusal>
    requires faces { faces ≤ most_faces }
    requires few { length traced.now.symbols ≤ faces }
    requires events { All (IsEventOf (length traced.now.symbols)) traced.now.events }
{
    let built = rebuilt::<Brand>(rt, alloc, faces, traced, Blank::new(1))?;
    let table = built.table();
    assert!(rt; have_same_entries::<Brand>(table, due, Blank::new(1)));
    has_vertices::<Brand>(rt, alloc, table, traced.vertices, Blank::new(1))?;
    Ok(())
}

/// Walks over a surface, rebuilds it, and compares both tables and the numbers of vertices.
fn table_comes_back(rt: &impl Abort, alloc: Global, table: &SideTable) -> Result<(), Refusal>
    requires { IsProper table.now.faces (gluing_of table.now) }
{
    let traced = trace(alloc, table)?;
    let due = turned::<Brand>(alloc, table, traced.order.as_slice(), Blank::new(1))?;
    let faces = table.face_count();
    is_rebuilt(rt, alloc, faces, &traced, &due)
}

/// Pairs the sides of faces, and the surface comes back.
fn comes_back(
    rt: &impl Abort,
    alloc: Global,
    points: u8,
    faces: &[[u32; 3]],
) -> Result<(), Refusal> {
    let table = pair(alloc, &mesh_of(alloc, points, faces)?)?;
    table_comes_back(rt, alloc, &table)
}

/// An octahedron.
const OCTAHEDRON: [[u32; 3]; 8] = [
    [0, 2, 4],
    [2, 1, 4],
    [1, 3, 4],
    [3, 0, 4],
    [2, 0, 5],
    [1, 2, 5],
    [3, 1, 5],
    [0, 3, 5],
];

/// Surfaces by the number of their points and their faces.
static LISTED: [(u8, &[[u32; 3]]); 8] = [
    (3, &[[0, 1, 2]]),
    (4, &SQUARE),
    // Two parts share a point.
    (5, &[[0, 1, 2], [2, 3, 4]]),
    (4, &TETRAHEDRON),
    (6, &OCTAHEDRON),
    (7, &TORUS),
    (6, &RING),
    (5, &BOOK),
];

#[test]
fn surfaces_come_back(rt: HostRuntime) -> Result<(), Fail> {
    let alloc = rt.alloc();
    for (points, faces) in LISTED.iter() {
        comes_back(&rt, alloc, *points, faces)?;
    }
    Ok(())
}

#[test]
fn a_fan_comes_back(rt: HostRuntime) -> Result<(), Fail> {
    let alloc = rt.alloc();
    let around = fan(alloc, 40)?;
    comes_back(&rt, alloc, 41, around.as_slice())?;
    Ok(())
}

/// A grid by its columns and rows of points and of cells and its holes.
struct Grid {
    points: (u8, u8),
    cells: (u8, u8),
    holes: &'static [(u8, u8)],
}

/// Grids: a plain one, one that closes round in both directions, and with four and three holes.
static GRIDS: [Grid; 4] = [
    Grid {
        points: (5, 4),
        cells: (4, 3),
        holes: &[],
    },
    Grid {
        points: (3, 4),
        cells: (3, 4),
        holes: &[],
    },
    Grid {
        points: (6, 6),
        cells: (5, 5),
        holes: &[(1, 1), (3, 1), (1, 3), (3, 3)],
    },
    Grid {
        points: (8, 4),
        cells: (7, 3),
        holes: &[(1, 1), (3, 1), (5, 1)],
    },
];

/// A grid comes back.
fn grid_comes_back(rt: &impl Abort, alloc: Global, told: &Grid) -> Result<(), Refusal> {
    let (columns, rows) = told.points;
    assert!(rt; 0 < columns && columns < 16 && 0 < rows && rows < 16);
    let faces = grid(alloc, told.points, told.cells, told.holes)?;
    comes_back(rt, alloc, columns * rows, faces.as_slice())
}

#[test]
fn grids_come_back(rt: HostRuntime) -> Result<(), Fail> {
    let alloc = rt.alloc();
    for told in GRIDS.iter() {
        grid_comes_back(&rt, alloc, told)?;
    }
    Ok(())
}
