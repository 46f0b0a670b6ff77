//! The walk.
//!
//! From a corner the walk enters a face, notes its symbol and goes on: to the right, to the left where
//! the right is closed, and where both are closed back to the last corner that an S kept and whose face
//! is unvisited. A run ends where none is left.

ghost use Rattle.std.specs.Prelude.{◌≡◌, ℕ, ◌*◌, ◌<◌, ◌≤◌, ◌++◌, All, IfOk, IfSome, OnOk, vec_len, length, map, reverse};
ghost use Rattle.std.specs.Option.{option_map};
ghost use Rattle.corner_table.specs.Sides.{side, second, side_at};
ghost use Rattle.eb_machine.specs.Machine.{pushed};
ghost use Rattle.eb_trace.specs.Stored.{traced_gluing, noted_walk, split_entry, IsTracedSurface, IsTraceStored};
ghost use Rattle.eb_trace.specs.Trace.{entered_by, events_noted, take_kept, go_back, after_symbol, trace_visit, run, start_corner, begun_inside, begun, face_run};

use crate::marks::Marks;
use crate::notes::{Entered, Notes, note_event};
use crate::numbers::NONE;
use crate::surface::Surface;
use corner_table::{Symbol, next_number, previous_number};
use drc_base::Memory;

/// What is kept for a face whose symbol has this number: the number, if the symbol is S.
fn split_entry(number: u32, symbol: Symbol) -> u32
    ensures { result ≡ split_entry number symbol }
{
    match symbol {
        Symbol::S => number,
        _ => NONE,
    }
}

/// Enters a face.
#[inline(always)]
fn enter(
    s: &Surface<'_>,
    marks: &mut Marks,
    notes: &mut Notes,
    corner: u32,
    symbol: Symbol,
) -> Result<(), Memory>
    requires surface { IsTracedSurface s.now }
    requires corner { corner < 3 * s.now.faces }
    requires stored { IsTraceStored s.now marks.old notes.old }
    requires few { vec_len notes.old.entries < s.now.faces }
    ensures stored { OnOk result (IsTraceStored s.now marks.new notes.new) }
    ensures walk { OnOk result (noted_walk notes.new ≡ entered_by (noted_walk notes.old) (side_at corner) symbol) }
{
    let split = split_entry(notes.entries.len() as u32, symbol);
    notes.entries.push(Entered { corner, symbol })?;
    marks.splits[(corner / 3) as usize] = split;
    marks.mark(s, corner / 3);
    Ok(())
}

/// Notes the events of a face about to be entered.
#[inline(always)]
fn note_events(s: &Surface<'_>, marks: &Marks, notes: &mut Notes, corner: u32) -> Result<(), Memory>
    requires surface { IsTracedSurface s.now }
    requires corner { corner < 3 * s.now.faces }
    requires stored { IsTraceStored s.now marks.now notes.old }
    requires few { vec_len notes.old.entries < s.now.faces }
    ensures rest { OnOk result (notes.new ≡ record notes.old { events = notes.new.events }) }
    ensures events { OnOk result (reverse notes.new.events.items ≡ events_noted (traced_gluing s.now) (noted_walk notes.old).entries (side_at corner) ++ reverse notes.old.events.items) }
{
    let source = notes.entries.len() as u32;
    let right = marks.split_of(s, s.across_of(next_number(corner)));
    let left = marks.split_of(s, s.across_of(previous_number(corner)));
    note_event(&mut notes.events, source, true, right)?;
    note_event(&mut notes.events, source, false, left)
}

/// Keeps the corner across, if there is one.
#[inline(always)]
fn keep(notes: &mut Notes, side: Option<u32>) -> Result<(), Memory>
    ensures rest { OnOk result (notes.new ≡ record notes.old { kept = notes.new.kept }) }
    ensures kept { OnOk result (map side_at (reverse notes.new.kept.items) ≡ pushed (option_map side_at side) (map side_at (reverse notes.old.kept.items))) }
    ensures within { OnOk result ((corners : ℕ) → IfSome side (λ n. n < corners) → All (λ (k : ℕ). k < corners) notes.old.kept.items → All (λ (k : ℕ). k < corners) notes.new.kept.items) }
{
    match side {
        None => {}
        Some(n) => notes.kept.push(n)?,
    }
    Ok(())
}

/// Takes kept corners off, up to and with the first of an unvisited face.
#[inline(always)]
fn take_kept(s: &Surface<'_>, marks: &Marks, notes: &mut Notes) -> Option<u32>
    requires stored { IsTraceStored s.now marks.now notes.old }
    ensures stored { IsTraceStored s.now marks.now notes.new }
    ensures walk { go_back (noted_walk notes.old) (take_kept (noted_walk notes.old) (noted_walk notes.old).kept) ≡ (noted_walk notes.new, option_map side_at result) }
    ensures within { IfSome result (λ n. n < 3 * s.now.faces) }
{
    'taking: loop {
        match notes.kept.pop() {
            None => return None,
            Some(corner) => {
                if !marks.is_visited(corner / 3) {
                    return Some(corner);
                }
            }
        }
    }
}

/// What a symbol does at a corner, and where the run goes on.
#[inline(always)]
fn after_symbol(
    s: &Surface<'_>,
    marks: &mut Marks,
    notes: &mut Notes,
    corner: u32,
    symbol: Symbol,
) -> Result<Option<u32>, Memory>
    requires surface { IsTracedSurface s.now }
    requires corner { corner < 3 * s.now.faces }
    requires stored { IsTraceStored s.now marks.old notes.old }
    requires few { vec_len notes.old.entries < s.now.faces }
    ensures stored { OnOk result (IsTraceStored s.now marks.new notes.new) }
    ensures walk { IfOk result (λ next. after_symbol (traced_gluing s.now) (noted_walk notes.old) (side_at corner) symbol ≡ (noted_walk notes.new, option_map side_at next)) }
    ensures within { IfOk result (λ next. IfSome next (λ n. n < 3 * s.now.faces)) }
{
    let right = s.across_of(next_number(corner));
    let left = s.across_of(previous_number(corner));
    match symbol {
        Symbol::C => {
            enter(s, marks, notes, corner, symbol)?;
            Ok(right)
        }
        Symbol::S => {
            enter(s, marks, notes, corner, symbol)?;
            keep(notes, left)?;
            Ok(right)
        }
        Symbol::L => {
            note_events(s, marks, notes, corner)?;
            enter(s, marks, notes, corner, symbol)?;
            Ok(right)
        }
        Symbol::R => {
            note_events(s, marks, notes, corner)?;
            enter(s, marks, notes, corner, symbol)?;
            Ok(left)
        }
        Symbol::E => {
            note_events(s, marks, notes, corner)?;
            enter(s, marks, notes, corner, symbol)?;
            Ok(take_kept(s, marks, notes))
        }
    }
}

/// Visits the face of a corner, and answers where the run goes on.
#[inline(always)]
fn visit(
    s: &Surface<'_>,
    marks: &mut Marks,
    notes: &mut Notes,
    corner: u32,
) -> Result<Option<u32>, Memory>
    requires surface { IsTracedSurface s.now }
    requires corner { corner < 3 * s.now.faces }
    requires stored { IsTraceStored s.now marks.old notes.old }
    requires few { vec_len notes.old.entries < s.now.faces }
    ensures stored { OnOk result (IsTraceStored s.now marks.new notes.new) }
    ensures walk { IfOk result (λ next. trace_visit s.now.faces (traced_gluing s.now) (noted_walk notes.old) (side_at corner) ≡ (noted_walk notes.new, option_map side_at next)) }
    ensures within { IfOk result (λ next. IfSome next (λ n. n < 3 * s.now.faces)) }
{
    let symbol = marks.symbol_at(s, corner);
    after_symbol(s, marks, notes, corner, symbol)
}

/// A run from a corner.
#[inline(always)]
fn run(s: &Surface<'_>, marks: &mut Marks, notes: &mut Notes, corner: u32) -> Result<(), Memory>
    requires surface { IsTracedSurface s.now }
    requires corner { corner < 3 * s.now.faces }
    requires stored { IsTraceStored s.now marks.old notes.old }
    requires few { length (run s.now.faces (traced_gluing s.now) s.now.faces (noted_walk notes.old) (side_at corner)).entries ≤ s.now.faces }
    ensures stored { OnOk result (IsTraceStored s.now marks.new notes.new) }
    ensures walk { OnOk result (noted_walk notes.new ≡ run s.now.faces (traced_gluing s.now) s.now.faces (noted_walk notes.old) (side_at corner)) }
{
    let mut at = corner;
    for turn in 0..s.faces {
        match visit(s, marks, notes, at)? {
            None => return Ok(()),
            Some(next) => at = next,
        }
    }
    Ok(())
}

/// A run round a face, which has no symbol.
fn begin_inside(
    s: &Surface<'_>,
    marks: &mut Marks,
    notes: &mut Notes,
    face: u32,
) -> Result<(), Memory>
    requires surface { IsTracedSurface s.now }
    requires face { face < s.now.faces }
    requires stored { IsTraceStored s.now marks.old notes.old }
    requires few { length (begun_inside s.now.faces (traced_gluing s.now) face (noted_walk notes.old) (traced_gluing s.now (side face second))).entries ≤ s.now.faces }
    ensures stored { OnOk result (IsTraceStored s.now marks.new notes.new) }
    ensures walk { OnOk result (noted_walk notes.new ≡ begun_inside s.now.faces (traced_gluing s.now) face (noted_walk notes.old) (traced_gluing s.now (side face second))) }
{
    match s.across_of(3 * face + 1) {
        None => Ok(()),
        Some(corner) => {
            notes.bits.push(true)?;
            notes.interior.push(face)?;
            marks.mark(s, face);
            run(s, marks, notes, corner)
        }
    }
}

/// The run of a face.
fn begin(s: &Surface<'_>, marks: &mut Marks, notes: &mut Notes, face: u32) -> Result<(), Memory>
    requires surface { IsTracedSurface s.now }
    requires face { face < s.now.faces }
    requires stored { IsTraceStored s.now marks.old notes.old }
    requires few { length (begun s.now.faces (traced_gluing s.now) face (noted_walk notes.old) (start_corner s.now.faces (traced_gluing s.now) face)).entries ≤ s.now.faces }
    ensures stored { OnOk result (IsTraceStored s.now marks.new notes.new) }
    ensures walk { OnOk result (noted_walk notes.new ≡ begun s.now.faces (traced_gluing s.now) face (noted_walk notes.old) (start_corner s.now.faces (traced_gluing s.now) face)) }
{
    match s.start_corner(face) {
        Some(corner) => {
            notes.bits.push(false)?;
            run(s, marks, notes, corner)
        }
        None => begin_inside(s, marks, notes, face),
    }
}

/// The run of a face, if it is unvisited.
pub(crate) fn walk_from(
    s: &Surface<'_>,
    marks: &mut Marks,
    notes: &mut Notes,
    face: u32,
) -> Result<(), Memory>
    requires surface { IsTracedSurface s.now }
    requires face { face < s.now.faces }
    requires stored { IsTraceStored s.now marks.old notes.old }
    requires few { length (face_run s.now.faces (traced_gluing s.now) face (noted_walk notes.old)).entries ≤ s.now.faces }
    ensures stored { OnOk result (IsTraceStored s.now marks.new notes.new) }
    ensures walk { OnOk result (noted_walk notes.new ≡ face_run s.now.faces (traced_gluing s.now) face (noted_walk notes.old)) }
{
    if marks.is_visited(face) {
        Ok(())
    } else {
        begin(s, marks, notes, face)
    }
}
