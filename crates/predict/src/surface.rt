//! A surface as the predictions by several parallelograms read it: the side across each side, the class
//! of each corner, the entry of each class, and the corner of each entry.

ghost use Rattle.std.specs.Prelude.{◌≡◌, ◌<◌, ◌≤◌, IfSome, length, get_or};
ghost use Rattle.std.specs.Option.{option_map};
ghost use Rattle.corner_table.specs.Sides.{side_at};
ghost use Rattle.corner_table.specs.Table.{free_entry};
ghost use Rattle.corner_table.specs.Ordered.{IsBelow, corner_at, at_corner};
ghost use Rattle.predict.specs.Stored.{IsOrderedSurface, ordered_in};
ghost use Rattle.predict.specs.Surfaces.{surface, IsOverTable};

use crate::orders::Ordered;
use corner_table::{FREE, FaceAcross, SideTable, Steps, face_across};
use std::marker::Brand;
use std::sync::ledger::{Blank, Ledger};

/// A surface by lists that go by the numbers of its sides, its corners, its classes and its entries.
#[derive(Drop)]
pub(crate) struct Surface<'t> {
    pub(crate) across: &'t [u32],
    pub(crate) labels: &'t [u32],
    pub(crate) entry_of_class: &'t [u32],
    pub(crate) corners: &'t [u32],
}

/// The entries of a table, under a count of calls that nothing else takes part in.
fn entries_of<'t, L: Ledger>(t: &'t SideTable, blank: Blank) -> &'t [u32]
    requires name { blank.name ≡ L.name }
    requires parts { blank.parts ≡ L.parts }
    requires some { 0 < L.parts }
    ensures { result.now ≡ t.now.entries }
{
    let mut steps = Steps::<L>::new(blank);
    t.across(&mut steps)
}

/// The lists of an ordered surface.
pub(crate) fn surface_of<'t>(on: &Ordered<'t>) -> Surface<'t>
    requires { IsOverTable on.now }
    ensures surface { IsOrderedSurface result }
    ensures ordered { ordered_in result ≡ surface on.now }
    ensures count { length result.corners.now ≡ length on.now.order.now.corner_of_entry }
{
    // For the prover alone: the entries of a table are a gluing, with three for each face.
    let _faces = on.sides.face_count();
    Surface {
        across: entries_of::<Brand>(on.sides, Blank::new(1)),
        labels: on.classes.of_corner.as_slice(),
        entry_of_class: on.order.entry_of_class.as_slice(),
        corners: on.order.corner_of_entry.as_slice(),
    }
}

/// The number in a list of sides, as a gluing reads it.
fn entry_or_free(entries: &[u32], number: u32) -> u32
    requires { number < length entries.now }
    ensures { result ≡ get_or entries.now number free_entry }
{
    entries[number as usize]
}

impl Surface<'_> {
    /// The corner of an entry.
    pub(crate) fn corner_of(&self, e: usize) -> u32
        requires surface { IsOrderedSurface self.now }
        requires entry { e < length self.now.corners.now }
        ensures corner { side_at result ≡ corner_at (ordered_in self.now) e }
        ensures within { result < length self.now.labels.now }
    {
        self.corners[e]
    }

    /// The side across.
    pub(crate) fn across_of(&self, side: u32) -> Option<u32>
        requires surface { IsOrderedSurface self.now }
        requires side { side < length self.now.labels.now }
        ensures other { option_map side_at result ≡ (ordered_in self.now).gluing (side_at side) }
        ensures within { IfSome result (λ n. n < length self.now.labels.now) }
    {
        let found = entry_or_free(self.across, side);
        if found == FREE { None } else { Some(found) }
    }

    /// The face across the side of a corner, where there is one whose entries come before entry `e`.
    pub(crate) fn at_corner(&self, e: usize, corner: u32) -> Option<FaceAcross>
        requires surface { IsOrderedSurface self.now }
        requires corner { corner < length self.now.labels.now }
        ensures face { result ≡ at_corner (ordered_in self.now) e (side_at corner) }
        ensures below { IfSome result (IsBelow e) }
    {
        face_across(self.across, self.labels, self.entry_of_class, e, corner)
    }
}
