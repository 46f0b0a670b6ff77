//! A surface as the walk reads it: the side across each side, the label of each corner's vertex, and
//! which vertices meet a boundary.

ghost use Rattle.std.specs.Prelude.{◌≡◌, ◌*◌, ◌<◌, IfOk, IfSome, vec_len, get_or, false};
ghost use Rattle.std.specs.Option.{option_map};
ghost use Rattle.corner_table.specs.Sides.{side_at};
ghost use Rattle.corner_table.specs.Fans.{rightmost, swing_right};
ghost use Rattle.corner_table.specs.Labels.{label_at};
ghost use Rattle.corner_table.specs.Table.{gluing_of};
ghost use Rattle.eb_trace.specs.Stored.{traced_gluing, IsTracedSurface};
ghost use Rattle.eb_trace.specs.Trace.{start_by, start_corner};

use crate::numbers::entry_at;
use corner_table::{FREE, SideTable, Steps, previous_number};
use drc_base::Memory;
use std::alloc::Global;
use std::marker::Brand;
use std::sync::ledger::{Blank, Ledger};

/// A surface by lists that go by the numbers of its sides, its corners and its vertices; what is across
/// each side is read from its table.
#[derive(Drop)]
pub(crate) struct Surface<'t> {
    pub(crate) faces: u32,
    pub(crate) vertices: u32,
    pub(crate) across: &'t [u32],
    pub(crate) labels: Vec<u32>,
    pub(crate) ends: Vec<bool>,
}

/// A surface, from its table, under a count of calls that nothing else takes part in.
fn counted_surface<'t, L: Ledger>(
    alloc: Global,
    t: &'t SideTable,
    blank: Blank,
) -> Result<Surface<'t>, Memory>
    requires name { blank.name ≡ L.name }
    requires parts { blank.parts ≡ L.parts }
    requires some { 0 < L.parts }
    ensures surface { IfOk result (λ s. IsTracedSurface s) }
    ensures faces { IfOk result (λ s. s.faces ≡ t.now.faces) }
    ensures gluing { IfOk result (λ s. traced_gluing s ≡ gluing_of t.now) }
{
    let mut steps = Steps::<L>::new(blank);
    let classes = t.label_vertices(alloc, &mut steps)?;
    Ok(Surface {
        faces: t.face_count(),
        vertices: classes.count,
        across: t.across(&mut steps),
        labels: classes.of_corner.into_vec(),
        ends: classes.ends.into_vec(),
    })
}

/// A surface, from its table.
pub(crate) fn surface_of<'t>(alloc: Global, t: &'t SideTable) -> Result<Surface<'t>, Memory>
    ensures surface { IfOk result (λ s. IsTracedSurface s) }
    ensures faces { IfOk result (λ s. s.faces ≡ t.now.faces) }
    ensures gluing { IfOk result (λ s. traced_gluing s ≡ gluing_of t.now) }
{
    // For the prover alone, who shows the clauses of the value that the call gave.
    let surface = counted_surface::<Brand>(alloc, t, Blank::new(1))?;
    Ok(surface)
}

impl Surface<'_> {
    /// The side across.
    pub(crate) fn across_of(&self, side: u32) -> Option<u32>
        requires surface { IsTracedSurface self.now }
        requires side { side < 3 * self.now.faces }
        ensures other { option_map side_at result ≡ traced_gluing self.now (side_at side) }
        ensures within { IfSome result (λ n. n < 3 * self.now.faces) }
    {
        let found = entry_at(self.across, side);
        if found == FREE { None } else { Some(found) }
    }

    /// The label of a corner's vertex.
    pub(crate) fn label_of(&self, corner: u32) -> u32
        requires surface { IsTracedSurface self.now }
        requires corner { corner < 3 * self.now.faces }
        ensures label { result ≡ label_at self.now.labels.items (side_at corner) }
        ensures within { result < vec_len self.now.ends }
    {
        entry_at(self.labels.as_slice(), corner)
    }

    /// Whether the vertex of a corner meets a boundary.
    pub(crate) fn is_end(&self, corner: u32) -> bool
        requires surface { IsTracedSurface self.now }
        requires corner { corner < 3 * self.now.faces }
        ensures { result ≡ get_or self.now.ends.items (label_at self.now.labels.items (side_at corner)) false }
    {
        self.ends[self.label_of(corner) as usize]
    }

    /// The next corner to the right round a corner's vertex.
    fn right_of(&self, corner: u32) -> Option<u32>
        requires surface { IsTracedSurface self.now }
        requires corner { corner < 3 * self.now.faces }
        ensures corner { option_map side_at result ≡ swing_right (traced_gluing self.now) (side_at corner) }
        ensures within { IfSome result (λ n. n < 3 * self.now.faces) }
    {
        match self.across_of(previous_number(corner)) {
            None => None,
            Some(side) => Some(previous_number(side)),
        }
    }

    /// The last corner to the right round a corner's vertex.
    fn rightmost(&self, corner: u32) -> u32
        requires surface { IsTracedSurface self.now }
        requires corner { corner < 3 * self.now.faces }
        ensures corner { side_at result ≡ rightmost (traced_gluing self.now) (3 * self.now.faces) (side_at corner) }
        ensures within { result < 3 * self.now.faces }
    {
        let mut at = corner;
        for turn in 0..3 * self.faces {
            match self.right_of(at) {
                None => return at,
                Some(next) => at = next,
            }
        }
        at
    }

    /// The start corner that one corner of a face gives.
    fn start_by(&self, corner: u32) -> Option<u32>
        requires surface { IsTracedSurface self.now }
        requires corner { corner < 3 * self.now.faces }
        ensures corner { option_map side_at result ≡ start_by self.now.faces (traced_gluing self.now) (side_at corner) }
        ensures within { IfSome result (λ n. n < 3 * self.now.faces) }
    {
        match self.across_of(corner) {
            None => Some(corner),
            Some(_) => {
                if self.is_end(corner) {
                    Some(previous_number(self.rightmost(corner)))
                } else {
                    None
                }
            }
        }
    }

    /// The corner from which the run of a face starts; None where the run starts inside.
    pub(crate) fn start_corner(&self, face: u32) -> Option<u32>
        requires surface { IsTracedSurface self.now }
        requires face { face < self.now.faces }
        ensures corner { option_map side_at result ≡ start_corner self.now.faces (traced_gluing self.now) face }
        ensures within { IfSome result (λ n. n < 3 * self.now.faces) }
    {
        match self.start_by(3 * face) {
            Some(first) => Some(first),
            None => match self.start_by(3 * face + 1) {
                Some(second) => Some(second),
                None => self.start_by(3 * face + 2),
            },
        }
    }
}
