//! The table of glued sides: the side across is kept in a list by the number 3f + k.

use crate::entries::{Entries, FREE};
use crate::renumbering::{carried, places_of};
use crate::side_numbers::{
    next_number, next_of, number_of, previous_number, previous_of, side_with,
};
use crate::steps::{Looks, Steps};
use drc_base::{MAX_FACES, Memory, Side};
use std::alloc::Global;
use std::fmt;
use std::fmt::Debug;
use std::marker::Model;
use std::sync::ledger::Ledger;

/// Faces and the gluing of their sides in pairs. Contracts see it as the number of its faces and the
/// list of its entries, which gives the gluing.
#[derive(Drop)]
pub struct SideTable {
    faces: u32,
    across: Entries,
}

impl Model for SideTable {
    ghost use Rattle.corner_table.specs.Table.{Table, IsSideTable};

    ghost Value = { Table };

    ghost view = { λ t. record { faces = t.faces; entries = t.across.items } };

    ghost invariant = { λ t. IsSideTable t.faces t.across.items };
}

impl Debug for SideTable {
    fn fmt<W: fmt::Write>(&self, f: &mut fmt::Formatter<W>) -> fmt::Result {
        f.debug_struct("SideTable")
            .field("faces", &self.faces)
            .finish_non_exhaustive()
    }
}

impl SideTable {
    ghost use Rattle.std.specs.Prelude.{◌≡◌, ◌≢◌, ℕ, suc, ◌+◌, ◌*◌, ◌/◌, ◌<◌, ◌≤◌, IfOk, IfSome, length};
    ghost use Rattle.std.specs.Option.{option_map};
    ghost use Rattle.drc_base.specs.declared.limits.TheConstants.{MAX_FACES as most_faces};
    ghost use Rattle.corner_table.specs.Sides.{Side as side_value, Place, side, side_at, unglued, glue, IsGluing};
    ghost use Rattle.corner_table.specs.Fans.{swing_left, swing_right};
    ghost use Rattle.corner_table.specs.Table.{side_of, glued_in, gluing_of, room_of, IsFreeIn};
    ghost use Rattle.corner_table.specs.Carried.{IsRenumbering, IsCarried};

    /// A table without faces, and room for `faces` of them, which is a number for each of their sides.
    /// Fails only when out of memory.
    pub fn with_room(alloc: Global, faces: u32) -> Result<SideTable, Memory>
        requires { faces ≤ most_faces }
        ensures none { IfOk result (λ t. t.faces ≡ 0) }
        ensures room { IfOk result (λ t. room_of t ≡ faces) }
        ensures unglued { IfOk result (λ t. gluing_of t ≡ unglued) }
    {
        let across = Entries::filled(alloc, FREE, 3 * faces as usize)?;
        Ok(SideTable { faces: 0, across })
    }

    /// The table of these faces with the pairs of a list: its entry 3f + k is the number of the side that
    /// side k of face f is glued to, and `FREE` where that side is in no pair. The list becomes the table's.
    pub fn with_pairs(faces: u32, pairs: Vec<u32>) -> SideTable
        requires few { faces ≤ most_faces }
        requires each { length pairs.items ≡ 3 * faces }
        requires gluing { IsGluing faces (glued_in pairs.items) }
        ensures faces { result.faces ≡ faces }
        ensures entries { result.entries ≡ pairs.items }
    {
        SideTable {
            faces,
            across: Entries::from_vec(pairs),
        }
    }

    /// How many faces there are.
    pub fn face_count(&self) -> u32
        ensures count { result ≡ self.now.faces }
        ensures room { result ≤ room_of self.now }
        ensures entries { length self.now.entries ≡ 3 * room_of self.now }
        ensures limit { room_of self.now ≤ most_faces }
        ensures gluing { IsGluing self.now.faces (gluing_of self.now) }
    {
        self.faces
    }

    /// Adds a face, no side of which is glued, and answers its number.
    pub fn add_face<L: Ledger>(&mut self, steps: &mut Steps<L>) -> u32
        requires { self.old.faces < room_of self.old }
        ensures face { result ≡ self.old.faces }
        ensures faces { self.new.faces ≡ self.old.faces + 1 }
        ensures entries { self.new.entries ≡ self.old.entries }
        ensures free { (k : Place) → IsFreeIn self.new (side result k) }
        ensures steps { steps.new ≡ steps.old + 1 }
    {
        let _ = steps.tick();
        self.grow()
    }

    /// Glues two free sides of two faces.
    pub fn glue<L: Ledger>(&mut self, a: Side, b: Side, steps: &mut Steps<L>)
        requires first { IsFreeIn self.old (side_of a) }
        requires second { IsFreeIn self.old (side_of b) }
        requires apart { a.face ≢ b.face }
        ensures faces { self.new.faces ≡ self.old.faces }
        ensures room { room_of self.new ≡ room_of self.old }
        ensures entries { length self.new.entries ≡ length self.old.entries }
        ensures glued { gluing_of self.new ≡ glue (side_of a) (side_of b) (gluing_of self.old) }
        ensures steps { steps.new ≡ steps.old + 1 }
    {
        let _ = steps.tick();
        self.pair(a, b);
    }

    /// For each side, by its number 3f + k, the number of the side that it is glued to, and `FREE`
    /// where it is in no pair. Sides of faces for which there is room alone are free. The call counts as one
    /// for each entry, that is three for each face for which there is room. What is lent may be looked at
    /// again, and isn't counted again.
    pub fn across<L: Ledger>(&self, steps: &mut Steps<L>) -> &[u32]
        ensures entries { result.now ≡ self.now.entries }
        ensures steps { steps.new ≡ steps.old + length self.now.entries }
    {
        let looks = steps.count(self.across.count());
        self.across.lent(looks)
    }

    /// The side that `s` is glued to; None where `s` is free.
    pub fn other<L: Ledger>(&self, s: Side, steps: &mut Steps<L>) -> Option<Side>
        requires { s.face < self.now.faces }
        ensures other { option_map side_of result ≡ gluing_of self.now (side_of s) }
        ensures steps { steps.new ≡ steps.old + 1 }
    {
        let mut looks = steps.tick();
        self.across_of(s, &mut looks)
    }

    /// The next corner to the left round the vertex of corner `c`: across the side of the corner
    /// after it. None where that side is free.
    pub fn swing_left<L: Ledger>(&self, c: Side, steps: &mut Steps<L>) -> Option<Side>
        requires { c.face < self.now.faces }
        ensures corner { option_map side_of result ≡ swing_left (gluing_of self.now) (side_of c) }
        ensures steps { steps.new ≡ steps.old + 1 }
    {
        let mut looks = steps.tick();
        match self.across_of(next_of(c), &mut looks) {
            Some(found) => Some(next_of(found)),
            None => None,
        }
    }

    /// The next corner to the right round the vertex of corner `c`: across the side of the corner
    /// before it. None where that side is free.
    pub fn swing_right<L: Ledger>(&self, c: Side, steps: &mut Steps<L>) -> Option<Side>
        requires { c.face < self.now.faces }
        ensures corner { option_map side_of result ≡ swing_right (gluing_of self.now) (side_of c) }
        ensures steps { steps.new ≡ steps.old + 1 }
    {
        let mut looks = steps.tick();
        match self.across_of(previous_of(c), &mut looks) {
            Some(found) => Some(previous_of(found)),
            None => None,
        }
    }

    /// The same surface under new numbers: row i says which face the new face i is, and by how much it
    /// is turned, so that its corner k is corner k + turn, modulo 3, of that face. Its pairs are those
    /// of this table, renumbered, and no others. It has room for exactly these faces. A list of a number for
    /// each side is made for it, and one more while it is made. Fails only when out of memory. Each entry of
    /// a face is looked at once, and the call counts as many steps as `across` does.
    pub fn renumbered<L: Ledger>(
        &self,
        alloc: Global,
        rows: &[(u32, u8)],
        steps: &mut Steps<L>,
    ) -> Result<SideTable, Memory>
        requires { IsRenumbering self.now.faces rows.now }
        ensures faces { IfOk result (λ t. t.faces ≡ self.now.faces) }
        ensures room { IfOk result (λ t. room_of t ≡ self.now.faces) }
        ensures carried { IfOk result (λ t. IsCarried self.now.faces (gluing_of self.now) rows.now (gluing_of t)) }
        ensures steps { steps.new ≡ steps.old + length self.now.entries }
    {
        let looks = steps.count(self.entry_count());
        let faces = self.face_count();
        let places = places_of(alloc, faces, rows)?;
        let entries = carried(alloc, faces, rows, &places, &self.across, looks)?;
        let across = Entries::from_vec(entries);
        Ok(SideTable { faces, across })
    }

    /// How many entries there are, three for each face for which there is room.
    pub(crate) fn entry_count(&self) -> u64
        ensures { result ≡ length self.now.entries }
    {
        self.across.count()
    }

    /// Adds a face, no side of which is glued, and looks at no entry.
    pub(crate) fn grow(&mut self) -> u32
        requires { self.old.faces < room_of self.old }
        ensures face { result ≡ self.old.faces }
        ensures faces { self.new.faces ≡ self.old.faces + 1 }
        ensures entries { self.new.entries ≡ self.old.entries }
        ensures free { (k : Place) → IsFreeIn self.new (side result k) }
    {
        let face = self.faces;
        self.faces = face + 1;
        face
    }

    /// Writes a pair of two free sides of two faces, and looks at no entry.
    pub(crate) fn pair(&mut self, a: Side, b: Side)
        requires first { IsFreeIn self.old (side_of a) }
        requires second { IsFreeIn self.old (side_of b) }
        requires apart { a.face ≢ b.face }
        ensures faces { self.new.faces ≡ self.old.faces }
        ensures room { room_of self.new ≡ room_of self.old }
        ensures entries { length self.new.entries ≡ length self.old.entries }
        ensures glued { gluing_of self.new ≡ glue (side_of a) (side_of b) (gluing_of self.old) }
    {
        // For the prover alone, who knows of the lists from here on that they fit together.
        let _ = &self.faces;
        let first = number_of(a);
        let second = number_of(b);
        self.across.put(first, second);
        self.across.put(second, first);
    }

    /// The side that `s` is glued to.
    fn across_of(&self, s: Side, looks: &mut Looks) -> Option<Side>
        requires within { s.face < self.now.faces }
        requires look { 0 < looks.old.left }
        ensures across { option_map side_of result ≡ gluing_of self.now (side_of s) }
        ensures look { looks.new.left + 1 ≡ looks.old.left }
    {
        // For the prover alone, who knows of the lists from here on that they fit together.
        let _ = &self.faces;
        let entry = self.across.at(number_of(s), looks);
        if entry == FREE {
            None
        } else {
            Some(side_with(entry))
        }
    }

    /// The next corner to the left round the vertex of a corner, by their numbers.
    pub(crate) fn left_of(&self, corner: u32, looks: &mut Looks) -> Option<u32>
        requires corner { corner < 3 * self.now.faces }
        requires look { 0 < looks.old.left }
        ensures corner { option_map side_at result ≡ swing_left (gluing_of self.now) (side_at corner) }
        ensures within { IfSome result (λ n. n < 3 * self.now.faces) }
        ensures look { looks.new.left + 1 ≡ looks.old.left }
    {
        // For the prover alone, who knows of the lists from here on that they fit together.
        let _ = &self.faces;
        let side = self.across.at(next_number(corner), looks);
        if side == FREE {
            None
        } else {
            Some(next_number(side))
        }
    }

    /// The next corner to the right round the vertex of a corner, by their numbers.
    pub(crate) fn right_of(&self, corner: u32, looks: &mut Looks) -> Option<u32>
        requires corner { corner < 3 * self.now.faces }
        requires look { 0 < looks.old.left }
        ensures corner { option_map side_at result ≡ swing_right (gluing_of self.now) (side_at corner) }
        ensures within { IfSome result (λ n. n < 3 * self.now.faces) }
        ensures look { looks.new.left + 1 ≡ looks.old.left }
    {
        // For the prover alone, who knows of the lists from here on that they fit together.
        let _ = &self.faces;
        let side = self.across.at(previous_number(corner), looks);
        if side == FREE {
            None
        } else {
            Some(previous_number(side))
        }
    }
}
