//! A surface as the walks read it: the side across each side, the class of each corner, and which
//! classes a free side meets.

ghost use Rattle.std.specs.Prelude.{◌≡◌, ◌*◌, ◌<◌, IfSome, length, get_or};
ghost use Rattle.std.specs.Option.{option_map};
ghost use Rattle.corner_table.specs.Sides.{side_at};
ghost use Rattle.corner_table.specs.Labels.{IsLabelled, label_at};
ghost use Rattle.corner_table.specs.Table.{free_entry, gluing_of};
ghost use Rattle.walk_order.specs.Stored.{gluing_in, IsSurface};

use corner_table::{Classes, FREE, SideTable, Steps};
use std::marker::Brand;
use std::sync::ledger::{Blank, Ledger};

/// A surface by lists that go by the numbers of its sides, its corners and its classes.
#[derive(Clone, Copy)]
pub(crate) struct Surface<'t> {
    pub(crate) faces: u32,
    pub(crate) across: &'t [u32],
    pub(crate) labels: &'t [u32],
    pub(crate) ends: &'t [bool],
}

/// The entries of a table, under a count of calls that nothing else takes part in.
fn entries_of<'t, L: Ledger>(t: &'t SideTable, blank: Blank) -> &'t [u32]
    requires name { blank.name ≡ L.name }
    requires parts { blank.parts ≡ L.parts }
    requires some { 0 < L.parts }
    ensures { result.now ≡ t.now.entries }
{
    let mut steps = Steps::<L>::new(blank);
    t.across(&mut steps)
}

/// A surface, from its table and its classes.
pub(crate) fn surface_of<'t>(t: &'t SideTable, c: &'t Classes) -> Surface<'t>
    requires { IsLabelled t.now.faces (gluing_of t.now) c.now.of_corner c.now.count c.now.ends }
    ensures surface { IsSurface result }
    ensures faces { result.faces ≡ t.now.faces }
    ensures gluing { gluing_in result ≡ gluing_of t.now }
    ensures labels { result.labels.now ≡ c.now.of_corner }
    ensures ends { result.ends.now ≡ c.now.ends }
{
    Surface {
        faces: t.face_count(),
        across: entries_of::<Brand>(t, Blank::new(1)),
        labels: c.of_corner.as_slice(),
        ends: c.ends.as_slice(),
    }
}

/// The entry of a side or corner.
fn entry_at(entries: &[u32], number: u32) -> u32
    requires { number < length entries.now }
    ensures { result ≡ get_or entries.now number free_entry }
{
    entries[number as usize]
}

impl Surface<'_> {
    /// The side across.
    pub(crate) fn across_of(&self, side: u32) -> Option<u32>
        requires surface { IsSurface self.now }
        requires side { side < 3 * self.now.faces }
        ensures other { option_map side_at result ≡ gluing_in self.now (side_at side) }
        ensures within { IfSome result (λ n. n < 3 * self.now.faces) }
    {
        let found = entry_at(self.across, side);
        if found == FREE { None } else { Some(found) }
    }

    /// The class of a corner.
    pub(crate) fn class_of(&self, corner: u32) -> u32
        requires surface { IsSurface self.now }
        requires corner { corner < 3 * self.now.faces }
        ensures class { result ≡ label_at self.now.labels.now (side_at corner) }
        ensures within { result < length self.now.ends.now }
    {
        entry_at(self.labels, corner)
    }
}
