//! The table with the vertices of its corners by name, and its active sides in a list.
//!
//! A new face brings its own row for each side that isn't glued, and takes away those of the sides
//! that it is glued to. Where two vertices become one, one of the names is written over in all
//! triangles and rows. Both lists are made anew before the table is changed, so that when out of memory
//! all is as before.

ghost use Rattle.std.specs.Prelude.{◌≡◌, ◌+◌, ◌*◌, ◌<◌};
ghost use Rattle.drc_base.specs.declared.limits.TheConstants.{MAX_FACES as most_faces};
ghost use Rattle.corner_table.specs.Sides.{side_at, number};
ghost use Rattle.corner_table.specs.Table.{side_of};
ghost use Rattle.eb_machine.specs.Beside.{glued_place};

use crate::active_rows::{
    Row, corners_named, first_with_equal, one_if, row_of, row_to, start_name, starts_row,
};
use crate::glued_faces::{add_one, add_three, add_two};
use crate::name_lists::{NameLists, after_beside, after_end, after_fill, after_split, after_tip};
use corner_table::{SideTable, Steps};
use drc_base::Memory;
use eb_machine::Beside;
use std::alloc::Global;
use std::marker::Model;
use std::sync::ledger::Ledger;

/// A table of sides, the names of each face's corners, and the rows.
#[derive(Debug, Drop)]
pub(crate) struct NamedTable {
    alloc: Global,
    table: SideTable,
    lists: NameLists,
    made: u32,
}

impl Model for NamedTable {
    ghost use Rattle.eb_rebuild.specs.NamedTables.{IsNamedTable};
    ghost use Rattle.eb_rebuild.specs.NamedTables.{NamedTable as named_value};
    ghost use Rattle.eb_rows.specs.Rowed.{all_listed};

    ghost Value = { named_value };

    ghost view = { λ n. record { table = n.table; triangles = n.lists.triangles.items; rows = all_listed n.lists.rows.items; made = n.made } };

    ghost invariant = { λ n. IsNamedTable (record { table = n.table; triangles = n.lists.triangles.items; rows = all_listed n.lists.rows.items; made = n.made }) };
}

impl NamedTable {
    ghost use Rattle.std.specs.Prelude.{◌≢◌, suc, ◌≤◌, ◌==◌, [], length, IfOk, OnOk, OnErr, IfSome, IfNone};
    ghost use Rattle.corner_table.specs.Sides.{next, side, first, second, third, unglued, glue, same, IsGluing};
    ghost use Rattle.corner_table.specs.Fans.{side_before};
    ghost use Rattle.corner_table.specs.Table.{gluing_of, room_of};
    ghost use Rattle.eb_machine.specs.Degree.{degree};
    ghost use Rattle.eb_machine.specs.Machine.{first_degenerate};
    ghost use Rattle.eb_rows.specs.Rowed.{IsRowIn, IsGluedIn, IsThree};

    /// No faces, and room for `faces` of them.
    pub(crate) fn with_room(alloc: Global, faces: u32) -> Result<NamedTable, Memory>
        requires { faces ≤ most_faces }
        ensures none { IfOk result (λ n. n.table.faces ≡ 0) }
        ensures room { IfOk result (λ n. room_of n.table ≡ faces) }
        ensures unglued { IfOk result (λ n. gluing_of n.table ≡ unglued) }
        ensures made { IfOk result (λ n. n.made ≡ 0) }
    {
        let table = SideTable::with_room(alloc, faces)?;
        Ok(NamedTable {
            alloc,
            table,
            lists: NameLists {
                triangles: Vec::new(alloc),
                rows: Vec::new(alloc),
            },
            made: 0,
        })
    }

    /// How many faces there are.
    pub(crate) fn face_count(&self) -> u32
        ensures count { result ≡ self.now.table.faces }
        ensures room { result ≤ room_of self.now.table }
        ensures entries { length self.now.table.entries ≡ 3 * room_of self.now.table }
        ensures limit { room_of self.now.table ≤ most_faces }
        ensures gluing { IsGluing self.now.table.faces (gluing_of self.now.table) }
    {
        self.table.face_count()
    }

    /// How many vertices were made.
    pub(crate) fn made(&self) -> u32
        ensures { result ≡ self.now.made }
    {
        self.made
    }

    /// The table, given back.
    pub(crate) fn into_table(self) -> SideTable
        ensures { result ≡ self.table }
    {
        self.table
    }

    /// The row of a side; None where the side is glued.
    pub(crate) fn row_of(&self, side: u32) -> Option<Row>
        requires { side < 3 * self.now.table.faces }
        ensures side { IfSome result (λ r. r.side ≡ side) }
        ensures row { IfSome result (λ r. IsRowIn self.now r) }
        ensures none { IfNone result (IsGluedIn self.now.table (side_at side)) }
    {
        // For the prover alone, who knows from here on that names are fans.
        let _ = &self.made;
        match row_of(self.lists.rows.as_slice(), side) {
            Some(row) => Some(row),
            None => None,
        }
    }

    /// The row that ends where a row starts.
    pub(crate) fn row_before(&self, row: Row) -> Row
        requires { IsRowIn self.now row }
        ensures row { IsRowIn self.now result }
        ensures before { side_at result.side ≡ side_before self.now.table.faces (gluing_of self.now.table) (side_at row.side) }
    {
        // For the prover alone, who knows from here on that names are fans.
        let _ = &self.made;
        match row_to(self.lists.rows.as_slice(), row.from) {
            Some(found) => found,
            None => row,
        }
    }

    /// The least face with two equal vertices.
    pub(crate) fn first_degenerate(&self) -> Option<u32>
        ensures { result ≡ first_degenerate self.now.table.faces (gluing_of self.now.table) self.now.table.faces }
    {
        let faces = self.table.face_count();
        first_with_equal(self.lists.triangles.as_slice(), faces)
    }

    /// Whether row b starts where row a ends.
    pub(crate) fn is_joined(&self, b: Row, a: Row) -> bool
        requires first { IsRowIn self.now b }
        requires second { IsRowIn self.now a }
        ensures { result ≡ same (side_before self.now.table.faces (gluing_of self.now.table) (side_at b.side)) (side_at a.side) }
    {
        // For the prover alone, who knows from here on that names are fans.
        let _ = &self.made;
        b.from == a.to
    }

    /// The degree of the vertex at which a side starts: how many corners have its name, and one more
    /// where a row starts there.
    pub(crate) fn degree_at(&self, side: u32) -> u32
        requires { side < 3 * self.now.table.faces }
        ensures { result ≡ degree self.now.table.faces (gluing_of self.now.table) (next (side_at side)) }
    {
        // For the prover alone: there are few faces.
        let _room = self.table.face_count();
        let vertex = start_name(self.lists.triangles.as_slice(), side);
        let corners = corners_named(self.lists.triangles.as_slice(), vertex);
        let starts = starts_row(self.lists.rows.as_slice(), vertex);
        corners + one_if(starts)
    }

    /// A face of three new vertices, no side of which is glued.
    pub(crate) fn add_end<L: Ledger>(&mut self, steps: &mut Steps<L>) -> Result<(), Memory>
        requires { self.old.table.faces < room_of self.old.table }
        ensures faces { OnOk result (self.new.table.faces ≡ suc self.old.table.faces) }
        ensures room { OnOk result (room_of self.new.table ≡ room_of self.old.table) }
        ensures glued { OnOk result (gluing_of self.new.table ≡ gluing_of self.old.table) }
        ensures made { OnOk result (self.new.made ≡ self.old.made + 3) }
        ensures err { OnErr result (self.new ≡ self.old) }
    {
        let face = self.table.face_count();
        let t = (self.made, self.made + 1, self.made + 2);
        let lists = after_end(self.alloc, &self.lists, face, t)?;
        self.table.add_face(steps);
        self.lists = lists;
        self.made += 3;
        Ok(())
    }

    /// A face whose side 1 or side 2 is glued to a row, with a new vertex.
    pub(crate) fn add_beside<L: Ledger>(
        &mut self,
        beside: Beside,
        a: Row,
        steps: &mut Steps<L>,
    ) -> Result<(), Memory>
        requires room { self.old.table.faces < room_of self.old.table }
        requires row { IsRowIn self.old a }
        ensures faces { OnOk result (self.new.table.faces ≡ suc self.old.table.faces) }
        ensures room { OnOk result (room_of self.new.table ≡ room_of self.old.table) }
        ensures glued { OnOk result (gluing_of self.new.table ≡ glue (side self.old.table.faces (glued_place beside)) (side_at a.side) (gluing_of self.old.table)) }
        ensures made { OnOk result (self.new.made ≡ self.old.made + 1) }
        ensures err { OnErr result (self.new ≡ self.old) }
    {
        let face = self.table.face_count();
        let lists = after_beside(self.alloc, &self.lists, face, beside, a, self.made)?;
        add_one(&mut self.table, beside.glued(), a.side, steps);
        self.lists = lists;
        self.made += 1;
        Ok(())
    }

    /// A face whose side 1 is glued to row a and whose side 2 to row b, which ends where a starts.
    pub(crate) fn add_tip<L: Ledger>(
        &mut self,
        a: Row,
        b: Row,
        steps: &mut Steps<L>,
    ) -> Result<(), Memory>
        requires room { self.old.table.faces < room_of self.old.table }
        requires first { IsRowIn self.old a }
        requires second { IsRowIn self.old b }
        requires apart { side_at b.side ≢ side_at a.side }
        requires joined { side_at b.side ≡ side_before self.old.table.faces (gluing_of self.old.table) (side_at a.side) }
        ensures faces { OnOk result (self.new.table.faces ≡ suc self.old.table.faces) }
        ensures room { OnOk result (room_of self.new.table ≡ room_of self.old.table) }
        ensures glued { OnOk result (gluing_of self.new.table ≡ glue (side self.old.table.faces third) (side_at b.side) (glue (side self.old.table.faces second) (side_at a.side) (gluing_of self.old.table))) }
        ensures made { OnOk result (self.new.made ≡ self.old.made) }
        ensures err { OnErr result (self.new ≡ self.old) }
    {
        let face = self.table.face_count();
        let lists = after_tip(self.alloc, &self.lists, face, a, b)?;
        add_two(&mut self.table, 1, a.side, 2, b.side, steps);
        self.lists = lists;
        Ok(())
    }

    /// A face whose side 1 is glued to row b and whose side 2 to row a. The vertex at which b starts
    /// becomes the one at which a ends.
    pub(crate) fn add_split<L: Ledger>(
        &mut self,
        b: Row,
        a: Row,
        steps: &mut Steps<L>,
    ) -> Result<(), Memory>
        requires room { self.old.table.faces < room_of self.old.table }
        requires first { IsRowIn self.old b }
        requires second { IsRowIn self.old a }
        requires apart { side_at b.side ≢ side_at a.side }
        ensures faces { OnOk result (self.new.table.faces ≡ suc self.old.table.faces) }
        ensures room { OnOk result (room_of self.new.table ≡ room_of self.old.table) }
        ensures glued { OnOk result (gluing_of self.new.table ≡ glue (side self.old.table.faces second) (side_at b.side) (glue (side self.old.table.faces third) (side_at a.side) (gluing_of self.old.table))) }
        ensures made { OnOk result (self.new.made ≡ self.old.made) }
        ensures err { OnErr result (self.new ≡ self.old) }
    {
        let face = self.table.face_count();
        let lists = after_split(self.alloc, &self.lists, face, b, a)?;
        add_two(&mut self.table, 2, a.side, 1, b.side, steps);
        self.lists = lists;
        Ok(())
    }

    /// A face that fills the loop of three rows: b ends where a starts, c ends where b starts, and a
    /// ends where c starts.
    pub(crate) fn fill<L: Ledger>(
        &mut self,
        a: Row,
        b: Row,
        c: Row,
        steps: &mut Steps<L>,
    ) -> Result<(), Memory>
        requires room { self.old.table.faces < room_of self.old.table }
        requires rows { IsThree self.old a b c }
        ensures faces { OnOk result (self.new.table.faces ≡ suc self.old.table.faces) }
        ensures room { OnOk result (room_of self.new.table ≡ room_of self.old.table) }
        ensures glued { OnOk result (gluing_of self.new.table ≡ glue (side self.old.table.faces third) (side_at c.side) (glue (side self.old.table.faces second) (side_at b.side) (glue (side self.old.table.faces first) (side_at a.side) (gluing_of self.old.table)))) }
        ensures made { OnOk result (self.new.made ≡ self.old.made) }
        ensures err { OnErr result (self.new ≡ self.old) }
    {
        let lists = after_fill(self.alloc, &self.lists, a, b, c)?;
        add_three(&mut self.table, a.side, b.side, c.side, steps);
        self.lists = lists;
        Ok(())
    }
}
