//! A table that grows, with the links of its boundary.
//!
//! Beside the entries stands, for each free side, the free side that follows it round the boundary and the
//! one before it, so that the ends of an open fan are found without a walk. A table that is finished has no
//! use for them, and is given back without.
//!
//! A table that grows is tied to a ledger by its type: each call that looks at it counts in that ledger, and
//! it lends nothing that could be looked at under another one.

use crate::entries::Entries;
use crate::links::{close_up, link_face, relink, replace};
use crate::side_numbers::{next_of, number_of, previous_of, side_with};
use crate::side_table::SideTable;
use crate::steps::Steps;
use drc_base::{Memory, Side};
use std::alloc::Global;
use std::fmt;
use std::fmt::Debug;
use std::marker::{Model, PhantomData};
use std::sync::ledger::Ledger;

/// A table of glued sides with the links of its boundary, whose calls count in the ledger `L` and in no other.
/// Contracts see it as the table.
#[derive(Drop)]
pub struct LinkedTable<L: Ledger> {
    sides: SideTable,
    after: Entries,
    before: Entries,
    ledger: PhantomData<L>,
}

impl<L: Ledger> Model for LinkedTable<L> {
    ghost use Rattle.std.specs.Prelude.{◌≤◌, length};
    ghost use Rattle.corner_table.specs.Table.{Table, IsLinkedTable};

    ghost Value = { Table };

    ghost view = { λ t. t.sides };

    ghost invariant = { λ t. IsLinkedTable t.sides.faces t.sides.entries t.after.items t.before.items
        × (length t.sides.entries ≤ t.after.room) × (length t.sides.entries ≤ t.before.room) };
}

impl<L: Ledger> Debug for LinkedTable<L> {
    fn fmt<W: fmt::Write>(&self, f: &mut fmt::Formatter<W>) -> fmt::Result {
        f.debug_struct("LinkedTable")
            .field("sides", &self.sides)
            .finish_non_exhaustive()
    }
}

impl<L: Ledger> LinkedTable<L> {
    ghost use Rattle.std.specs.Prelude.{◌≡◌, ◌≢◌, ◌+◌, ◌*◌, ◌<◌, ◌≤◌, IfOk, length};
    ghost use Rattle.std.specs.Option.{option_map};
    ghost use Rattle.drc_base.specs.declared.limits.TheConstants.{MAX_FACES as most_faces};
    ghost use Rattle.corner_table.specs.Sides.{Side as side_value, Place, first, second, third, side, place_of, unglued, glue, IsGluing};
    ghost use Rattle.corner_table.specs.Fans.{side_after, side_before, Follows};
    ghost use Rattle.corner_table.specs.Table.{side_of, gluing_of, room_of, IsFreeIn};

    /// A table without faces, and room for `faces` of them, which is three lists of a number for each
    /// of their sides. Fails only when out of memory.
    pub fn with_room(alloc: Global, faces: u32) -> Result<LinkedTable<L>, Memory>
        requires { faces ≤ most_faces }
        ensures none { IfOk result (λ t. t.faces ≡ 0) }
        ensures room { IfOk result (λ t. room_of t ≡ faces) }
        ensures unglued { IfOk result (λ t. gluing_of t ≡ unglued) }
    {
        let sides = SideTable::with_room(alloc, faces)?;
        // For the prover alone, who knows from here on how many entries there are.
        let _ = sides.face_count();
        let after = Entries::with_room(alloc, 3 * faces as usize)?;
        let before = Entries::with_room(alloc, 3 * faces as usize)?;
        Ok(LinkedTable {
            sides,
            after,
            before,
            ledger: PhantomData,
        })
    }

    /// How many faces there are.
    pub fn face_count(&self) -> u32
        ensures count { result ≡ self.now.faces }
        ensures room { result ≤ room_of self.now }
        ensures entries { length self.now.entries ≡ 3 * room_of self.now }
        ensures limit { room_of self.now ≤ most_faces }
        ensures gluing { IsGluing self.now.faces (gluing_of self.now) }
    {
        self.sides.face_count()
    }

    /// Adds a face, no side of which is glued, and answers its number.
    pub fn add_face(&mut self, steps: &mut Steps<L>) -> u32
        requires { self.old.faces < room_of self.old }
        ensures face { result ≡ self.old.faces }
        ensures faces { self.new.faces ≡ self.old.faces + 1 }
        ensures entries { self.new.entries ≡ self.old.entries }
        ensures free { (k : Place) → IsFreeIn self.new (side result k) }
        ensures steps { steps.new ≡ steps.old + 1 }
    {
        let face = self.sides.add_face(steps);
        link_face(&mut self.after, &mut self.before, face);
        face
    }

    /// Glues two free sides of two faces.
    pub fn glue(&mut self, a: Side, b: Side, steps: &mut Steps<L>)
        requires first { IsFreeIn self.old (side_of a) }
        requires second { IsFreeIn self.old (side_of b) }
        requires apart { a.face ≢ b.face }
        ensures faces { self.new.faces ≡ self.old.faces }
        ensures room { room_of self.new ≡ room_of self.old }
        ensures glued { gluing_of self.new ≡ glue (side_of a) (side_of b) (gluing_of self.old) }
        ensures steps { steps.new ≡ steps.old + 1 }
    {
        let looks = steps.tick();
        // For the prover alone, who knows of the lists from here on that they fit together.
        let _ = self.sides.face_count();
        let first = number_of(a);
        let second = number_of(b);
        relink(&mut self.after, &mut self.before, first, second, looks);
        self.sides.pair(a, b);
    }

    /// Adds a face, whose side `k` is glued to the free side `top`, and answers its number. Its two other
    /// sides are free.
    pub fn add_beside(&mut self, k: u8, top: Side, steps: &mut Steps<L>) -> u32
        requires place { k < 3 }
        requires more { self.old.faces < room_of self.old }
        requires top { IsFreeIn self.old (side_of top) }
        ensures face { result ≡ self.old.faces }
        ensures faces { self.new.faces ≡ self.old.faces + 1 }
        ensures room { room_of self.new ≡ room_of self.old }
        ensures glued { gluing_of self.new ≡ glue (side result (place_of k)) (side_of top) (gluing_of self.old) }
        ensures free { (j : Place) → j ≢ place_of k → IsFreeIn self.new (side result j) }
        ensures steps { steps.new ≡ steps.old + 1 }
    {
        let looks = steps.tick();
        let face = self.sides.grow();
        let glued = Side { face, k };
        let first = number_of(next_of(glued));
        let second = number_of(previous_of(glued));
        let across = number_of(top);
        link_face(&mut self.after, &mut self.before, face);
        replace(
            &mut self.after,
            &mut self.before,
            across,
            first,
            second,
            looks,
        );
        self.sides.pair(glued, top);
        face
    }

    /// Adds a face, whose side 1 is glued to the free side `top` and whose side 2 to `previous`, another
    /// side, which comes before `top` round the boundary. Answers its number; its side 0 is free.
    pub fn add_tip(&mut self, top: Side, previous: Side, steps: &mut Steps<L>) -> u32
        requires more { self.old.faces < room_of self.old }
        requires top { IsFreeIn self.old (side_of top) }
        requires previous { side_of previous ≡ side_before self.old.faces (gluing_of self.old) (side_of top) }
        requires apart { side_of previous ≢ side_of top }
        ensures face { result ≡ self.old.faces }
        ensures faces { self.new.faces ≡ self.old.faces + 1 }
        ensures room { room_of self.new ≡ room_of self.old }
        ensures glued { gluing_of self.new ≡ glue (side result third) (side_of previous) (glue (side result second) (side_of top) (gluing_of self.old)) }
        ensures free { IsFreeIn self.new (side result first) }
        ensures steps { steps.new ≡ steps.old + 1 }
    {
        let looks = steps.tick();
        let face = self.sides.grow();
        let left = number_of(top);
        let right = number_of(previous);
        let open = number_of(Side { face, k: 0 });
        link_face(&mut self.after, &mut self.before, face);
        close_up(&mut self.after, &mut self.before, left, right, open, looks);
        self.sides.pair(Side { face, k: 1 }, top);
        self.sides.pair(Side { face, k: 2 }, previous);
        face
    }

    /// The side that `s` is glued to; None where `s` is free.
    pub fn other(&self, s: Side, steps: &mut Steps<L>) -> Option<Side>
        requires { s.face < self.now.faces }
        ensures other { option_map side_of result ≡ gluing_of self.now (side_of s) }
        ensures steps { steps.new ≡ steps.old + 1 }
    {
        self.sides.other(s, steps)
    }

    /// The one free side that starts at the fan where the free side `s` ends: the one that follows it
    /// round the boundary.
    pub fn next_open(&self, s: Side, steps: &mut Steps<L>) -> Side
        requires { IsFreeIn self.now (side_of s) }
        ensures next { side_of result ≡ side_after self.now.faces (gluing_of self.now) (side_of s) }
        ensures follows { Follows self.now.faces (gluing_of self.now) (side_of s) (side_of result) }
        ensures only { (x : side_value) → Follows self.now.faces (gluing_of self.now) (side_of s) x → x ≡ side_of result }
        ensures steps { steps.new ≡ steps.old + 1 }
    {
        let mut looks = steps.tick();
        // For the prover alone, who knows of the lists from here on that they fit together.
        let _ = &self.sides;
        side_with(self.after.at(number_of(s), &mut looks))
    }

    /// The one free side that ends at the fan where the free side `s` starts: the one before it round
    /// the boundary.
    pub fn prev_open(&self, s: Side, steps: &mut Steps<L>) -> Side
        requires { IsFreeIn self.now (side_of s) }
        ensures previous { side_of result ≡ side_before self.now.faces (gluing_of self.now) (side_of s) }
        ensures free { IsFreeIn self.now (side_of result) }
        ensures follows { Follows self.now.faces (gluing_of self.now) (side_of result) (side_of s) }
        ensures only { (x : side_value) → IsFreeIn self.now x → Follows self.now.faces (gluing_of self.now) x (side_of s) → x ≡ side_of result }
        ensures steps { steps.new ≡ steps.old + 1 }
    {
        let mut looks = steps.tick();
        // For the prover alone, who knows of the lists from here on that they fit together.
        let _ = &self.sides;
        side_with(self.before.at(number_of(s), &mut looks))
    }

    /// The table without the links, whose lists are freed.
    pub fn into_sides(self) -> SideTable
        ensures { result ≡ self }
    {
        self.sides
    }
}
