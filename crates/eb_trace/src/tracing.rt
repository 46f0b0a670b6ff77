//! The trace of a surface.

ghost use Rattle.std.specs.Prelude.{◌≡◌, ℕ, ◌≤◌, ◌++◌, IfOk, All, length, map, reverse};
ghost use Rattle.corner_table.specs.Fans.{IsProper};
ghost use Rattle.corner_table.specs.Table.{gluing_of};
ghost use Rattle.corner_table.specs.Carried.{IsRenumbering};
ghost use Rattle.eb_machine.specs.Events.{IsEventOf};
ghost use Rattle.eb_trace.specs.Events.{IsSplitEvent, AreInOrder, SplitOnce};
ghost use Rattle.eb_trace.specs.FromTrace.{AreStartBits, CarriesOne, CarriesFans, IsRebuiltFrom, NamesVertices};
ghost use Rattle.eb_trace.specs.Writable.{IsWritable};
ghost use Rattle.eb_trace.specs.declared.notes.Entered.{Entered as entered_value};
ghost use Rattle.eb_trace.specs.Stored.{traced_gluing, noted_walk, entered_row, IsTracedSurface};
ghost use Rattle.eb_trace.specs.Trace.{trace, word_of, order_of, fan_count};

use crate::marks::no_marks;
use crate::notes::{Entered, Notes, no_notes};
use crate::surface::{Surface, surface_of};
use crate::walk::walk_from;
use corner_table::{Event, SideTable, Symbol};
use drc_base::{Memory, Sequence};
use std::alloc::{AllocError, Global};

/// What the walk over a surface notes (Edgebreaker: Rossignac 1999; split events: Isenburg and Snoeyink
/// 2001; the order and where runs start: this project's choice).
#[derive(Debug, Drop)]
pub struct Traced {
    /// The symbols, in the order of the walk.
    pub symbols: Sequence<Symbol>,
    /// The split events, in the order of the walk; their numbers count symbols of the walk from 0.
    pub events: Sequence<Event>,
    /// The start bits: for each run, in order, whether it starts round an interior face.
    pub starts: Sequence<bool>,
    /// For each face in the order of decoding, which it is, and its turn of 0, 1 or 2: corner k of face i
    /// in this order is corner k + turn, counted round, of the face that row i names.
    pub order: Sequence<(u32, u8)>,
    /// How many vertices the surface has: as many as fans, so a point that two parts share counts twice.
    pub vertices: u32,
}

/// The notes of the whole walk.
fn walk_all(alloc: Global, s: &Surface<'_>) -> Result<Notes, Memory>
    requires surface { IsTracedSurface s.now }
    requires few { length (trace s.now.faces (traced_gluing s.now)).entries ≤ s.now.faces }
    ensures { IfOk result (λ n. noted_walk n ≡ trace s.now.faces (traced_gluing s.now)) }
{
    let mut marks = no_marks(alloc, s)?;
    let mut notes = no_notes(alloc, s.faces)?;
    for face in 0..s.faces {
        walk_from(s, &mut marks, &mut notes, face)?;
    }
    Ok(notes)
}

/// The symbols of the entries.
fn symbols_of(alloc: Global, entries: &[Entered]) -> Result<Vec<Symbol>, AllocError>
    ensures { IfOk result (λ v. v.items ≡ map (λ (e : entered_value). e.symbol) entries.now) }
{
    entries.iter().map(|e| e.symbol).collect(alloc)
}

/// The rows of the entries, the last first, and then those of the interior faces.
fn rows_of(
    alloc: Global,
    entries: &[Entered],
    interior: &[u32],
) -> Result<Vec<(u32, u8)>, AllocError>
    ensures { IfOk result (λ v. v.items ≡ map entered_row (reverse entries.now) ++ map (λ (f : ℕ). (f, 1)) interior.now) }
{
    entries
        .iter()
        .rev()
        .map(|e| (e.corner / 3, (e.corner % 3) as u8))
        .chain(interior.iter().map(|face| (*face, 1)))
        .collect(alloc)
}

/// The faces in the order of decoding.
fn rows_in_order(alloc: Global, notes: &Notes) -> Result<Vec<(u32, u8)>, AllocError>
    ensures { IfOk result (λ v. v.items ≡ order_of (noted_walk notes.now)) }
{
    // For the prover alone, who shows the clauses of the value that the call gave.
    let rows = rows_of(alloc, notes.entries.as_slice(), notes.interior.as_slice())?;
    Ok(rows)
}

/// The walk over a proper surface (Edgebreaker: Rossignac 1999; split events: Isenburg and Snoeyink
/// 2001; the order and where runs start: this project's choice): its symbols, split events and start
/// bits, each in the order of the walk; its faces in the order of decoding, each with its turn; and
/// how many vertices there are. There are no more symbols than faces, nor events or start bits than
/// symbols, and the order lists each face once. Each event is of an R or E that met an earlier S on its right, or
/// of an L or E that met one on its left; events come by rising sources, the right one of a symbol
/// first, and no S has two. There is one surface in the order of decoding; it has as many vertices, and
/// determines the start bits. The machine of reverse decoding that is made for all faces and for no
/// fewer vertices than there are vertices and S together, and is fed what is answered, meets no fault
/// and builds that surface. So does the machine that names vertices, and in the end as many distinct
/// names stand in its triangles as there are vertices. After the symbols as many sides wait as there
/// are start bits. Fails only when out of memory.
pub fn trace(alloc: Global, t: &SideTable) -> Result<Traced, Memory>
    requires proper { IsProper t.now.faces (gluing_of t.now) }
    ensures symbols { IfOk result (λ r. r.symbols ≡ reverse (word_of (trace t.now.faces (gluing_of t.now)))) }
    ensures events { IfOk result (λ r. r.events ≡ reverse (trace t.now.faces (gluing_of t.now)).events) }
    ensures starts { IfOk result (λ r. r.starts ≡ reverse (trace t.now.faces (gluing_of t.now)).bits) }
    ensures order { IfOk result (λ r. r.order ≡ order_of (trace t.now.faces (gluing_of t.now))) }
    ensures vertices { IfOk result (λ r. r.vertices ≡ fan_count t.now.faces (gluing_of t.now)) }
    ensures events_fit { IfOk result (λ r. All (IsEventOf (length r.symbols)) r.events) }
    ensures events_split { IfOk result (λ r. All (IsSplitEvent r.symbols) r.events) }
    ensures events_in_order { IfOk result (λ r. AreInOrder r.events) }
    ensures split_once { IfOk result (λ r. SplitOnce r.events) }
    ensures few { IfOk result (λ r. length r.symbols ≤ t.now.faces) }
    ensures few_events { IfOk result (λ r. length r.events ≤ length r.symbols) }
    ensures few_starts { IfOk result (λ r. length r.starts ≤ length r.symbols) }
    ensures once { IfOk result (λ r. IsRenumbering t.now.faces r.order) }
    ensures carried { IfOk result (λ r. CarriesOne t.now.faces (gluing_of t.now) r.order) }
    ensures counted { IfOk result (λ r. CarriesFans t.now.faces (gluing_of t.now) r.order r.vertices) }
    ensures kept { IfOk result (λ r. IsRebuiltFrom t.now.faces (gluing_of t.now) r.symbols r.events r.starts r.order r.vertices) }
    ensures bits { IfOk result (λ r. AreStartBits t.now.faces (gluing_of t.now) r.symbols r.starts r.order) }
    ensures writable { IfOk result (λ r. IsWritable t.now.faces r.vertices r.symbols r.events r.starts) }
    ensures named { IfOk result (λ r. NamesVertices t.now.faces (gluing_of t.now) r.symbols r.events r.starts r.order r.vertices) }
{
    let surface = surface_of(alloc, t)?;
    let notes = walk_all(alloc, &surface)?;
    let symbols = symbols_of(alloc, notes.entries.as_slice())?;
    let order = rows_in_order(alloc, &notes)?;
    Ok(Traced {
        symbols: Sequence::from_vec(symbols),
        events: Sequence::from_vec(notes.events),
        starts: Sequence::from_vec(notes.bits),
        order: Sequence::from_vec(order),
        vertices: surface.vertices,
    })
}
