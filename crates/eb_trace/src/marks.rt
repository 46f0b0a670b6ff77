//! What the walk has visited.

ghost use Rattle.std.specs.Prelude.{◌≡◌, ◌*◌, ◌<◌, ◌||◌, not, IfOk, IfSome, OnOk, vec_len, get_or, set, false, true, replicate};
ghost use Rattle.std.specs.Option.{option_map};
ghost use Rattle.corner_table.specs.Sides.{side_at};
ghost use Rattle.corner_table.specs.Table.{free_entry};
ghost use Rattle.corner_table.specs.Labels.{label_at};
ghost use Rattle.eb_trace.specs.Stored.{traced_gluing, IsTracedSurface, AreSized, AreMarksOf, split_told, met_after};
ghost use Rattle.eb_trace.specs.Trace.{TraceWalk, is_visited_across, is_new_vertex, symbol_for, symbol_at_corner, split_across};

use crate::numbers::NONE;
use crate::surface::Surface;
use corner_table::{Symbol, next_number, previous_number};
use drc_base::Memory;
use std::alloc::Global;

/// Which faces are visited, which vertices a visited face meets, and the number of each face's S.
#[derive(Drop)]
pub(crate) struct Marks {
    pub(crate) visited: Vec<bool>,
    pub(crate) met: Vec<bool>,
    pub(crate) splits: Vec<u32>,
}

/// The symbol of a face: whether its tip is new, and whether the faces to the right and to the left
/// are visited or missing.
fn symbol_for(new: bool, right: bool, left: bool) -> Symbol
    ensures { result ≡ symbol_for new right left }
{
    if new {
        Symbol::C
    } else if right {
        if left { Symbol::E } else { Symbol::R }
    } else if left {
        Symbol::L
    } else {
        Symbol::S
    }
}

/// Whether a vertex is new: whether it meets a boundary, and whether a visited face meets it.
fn is_new_by(end: bool, met: bool) -> bool
    ensures { result ≡ not (end || met) }
{
    !end && !met
}

/// Nothing is visited.
pub(crate) fn no_marks(alloc: Global, s: &Surface<'_>) -> Result<Marks, Memory>
    ensures visited { IfOk result (λ m. m.visited.items ≡ replicate s.now.faces false) }
    ensures met { IfOk result (λ m. m.met.items ≡ replicate (vec_len s.now.ends) false) }
    ensures splits { IfOk result (λ m. m.splits.items ≡ replicate s.now.faces free_entry) }
{
    Ok(Marks {
        visited: vec![in alloc; false; s.faces as usize]?,
        met: vec![in alloc; false; s.ends.len()]?,
        splits: vec![in alloc; NONE; s.faces as usize]?,
    })
}

impl Marks {
    /// Whether a face is visited.
    pub(crate) fn is_visited(&self, face: u32) -> bool
        requires { face < vec_len self.now.visited }
        ensures { result ≡ get_or self.now.visited.items face false }
    {
        self.visited[face as usize]
    }

    /// Whether the face of a side is visited; a missing one counts as visited.
    fn is_visited_across(&self, s: &Surface<'_>, side: Option<u32>) -> bool
        requires sized { AreSized s.now self.now }
        requires side { IfSome side (λ n. n < 3 * s.now.faces) }
        ensures { (w : TraceWalk) → AreMarksOf s.now self.now w → result ≡ is_visited_across w (option_map side_at side) }
    {
        // For the prover alone, who knows the range of what is read.
        let _ = &s.faces;
        match side {
            None => true,
            Some(n) => self.is_visited(n / 3),
        }
    }

    /// Whether a visited face meets the vertex of a corner.
    fn is_met(&self, s: &Surface<'_>, corner: u32) -> bool
        requires surface { IsTracedSurface s.now }
        requires sized { AreSized s.now self.now }
        requires corner { corner < 3 * s.now.faces }
        ensures { result ≡ get_or self.now.met.items (label_at s.now.labels.items (side_at corner)) false }
    {
        self.met[s.label_of(corner) as usize]
    }

    /// Whether the vertex of a corner is new: it meets no boundary and no visited face.
    fn is_new(&self, s: &Surface<'_>, corner: u32) -> bool
        requires surface { IsTracedSurface s.now }
        requires sized { AreSized s.now self.now }
        requires corner { corner < 3 * s.now.faces }
        ensures { (w : TraceWalk) → AreMarksOf s.now self.now w → result ≡ is_new_vertex s.now.faces (traced_gluing s.now) w (side_at corner) }
    {
        let end = s.is_end(corner);
        let met = self.is_met(s, corner);
        is_new_by(end, met)
    }

    /// The symbol at a corner.
    #[inline(always)]
    pub(crate) fn symbol_at(&self, s: &Surface<'_>, corner: u32) -> Symbol
        requires surface { IsTracedSurface s.now }
        requires sized { AreSized s.now self.now }
        requires corner { corner < 3 * s.now.faces }
        ensures { (w : TraceWalk) → AreMarksOf s.now self.now w → result ≡ symbol_at_corner s.now.faces (traced_gluing s.now) w (side_at corner) }
    {
        let new = self.is_new(s, corner);
        let right = self.is_visited_across(s, s.across_of(next_number(corner)));
        let left = self.is_visited_across(s, s.across_of(previous_number(corner)));
        symbol_for(new, right, left)
    }

    /// The number of the S of the face of a side, if it has one.
    #[inline(always)]
    pub(crate) fn split_of(&self, s: &Surface<'_>, side: Option<u32>) -> u32
        requires sized { AreSized s.now self.now }
        requires side { IfSome side (λ n. n < 3 * s.now.faces) }
        ensures { (w : TraceWalk) → AreMarksOf s.now self.now w → split_told result ≡ split_across w.entries (option_map side_at side) }
    {
        // For the prover alone, who knows the range of what is read.
        let _ = &s.faces;
        match side {
            None => NONE,
            Some(n) => self.splits[(n / 3) as usize],
        }
    }

    /// Marks the vertex of a corner.
    fn meet(&mut self, s: &Surface<'_>, corner: u32)
        requires surface { IsTracedSurface s.now }
        requires sized { AreSized s.now self.old }
        requires corner { corner < 3 * s.now.faces }
        ensures met { self.new.met.items ≡ set self.old.met.items (get_or s.now.labels.items corner free_entry) true }
        ensures visited { self.new.visited ≡ self.old.visited }
        ensures splits { self.new.splits ≡ self.old.splits }
        ensures sized { AreSized s.now self.new }
    {
        self.met[s.label_of(corner) as usize] = true;
    }

    /// Marks a face and its vertices.
    #[inline(always)]
    pub(crate) fn mark(&mut self, s: &Surface<'_>, face: u32)
        requires surface { IsTracedSurface s.now }
        requires sized { AreSized s.now self.old }
        requires face { face < s.now.faces }
        ensures visited { self.new.visited.items ≡ set self.old.visited.items face true }
        ensures met { self.new.met.items ≡ met_after s.now.labels.items face self.old.met.items }
        ensures splits { self.new.splits ≡ self.old.splits }
        ensures sized { AreSized s.now self.new }
    {
        self.meet(s, 3 * face);
        self.meet(s, 3 * face + 1);
        self.meet(s, 3 * face + 2);
        self.visited[face as usize] = true;
    }
}
