//! A finished rebuilding.

use crate::degenerate::first_equal;
use corner_table::{Classes, SideTable};
use std::marker::Model;

/// The table of a finished rebuilding, with the classes of its corners. It is linked where the rebuilding kept
/// the boundary by links: of these only `finish` of a linked rebuilding makes one.
#[derive(Debug, Drop)]
pub struct Built {
    table: SideTable,
    classes: Classes,
    linked: bool,
}

impl Model for Built {
    ghost use Rattle.corner_table.specs.Labels.{IsLabelled};
    ghost use Rattle.corner_table.specs.Table.{gluing_of};
    ghost use Rattle.eb_rebuild.specs.Rebuilding.{BuiltValue};

    ghost Value = { BuiltValue };

    ghost view = { λ b. record { table = b.table; linked = b.linked } };

    ghost invariant = { λ b. IsLabelled b.table.faces (gluing_of b.table) b.classes.of_corner b.classes.count b.classes.ends };
}

impl Built {
    ghost use Rattle.std.specs.Prelude.{◌≡◌, true, false};
    ghost use Rattle.corner_table.specs.Labels.{IsLabelled};
    ghost use Rattle.corner_table.specs.Table.{gluing_of};
    ghost use Rattle.eb_machine.specs.Machine.{first_degenerate};

    /// A finished table whose boundary was kept by links, with the classes of its corners.
    pub(crate) fn by_links(table: SideTable, classes: Classes) -> Built
        requires { IsLabelled table.faces (gluing_of table) classes.of_corner classes.count classes.ends }
        ensures table { result.table ≡ table }
        ensures linked { result.linked ≡ true }
    {
        Built {
            table,
            classes,
            linked: true,
        }
    }

    /// A finished table that kept no links, with the classes of its corners.
    pub fn without_links(table: SideTable, classes: Classes) -> Built
        requires { IsLabelled table.faces (gluing_of table) classes.of_corner classes.count classes.ends }
        ensures table { result.table ≡ table }
        ensures linked { result.linked ≡ false }
    {
        Built {
            table,
            classes,
            linked: false,
        }
    }

    /// The least face of which two corners are one vertex.
    pub(crate) fn first_degenerate(&self) -> Option<u32>
        ensures { result ≡ first_degenerate self.now.table.faces (gluing_of self.now.table) self.now.table.faces }
    {
        let faces = self.table.face_count();
        first_equal(self.classes.of_corner.as_slice(), faces)
    }

    /// The table.
    pub fn table(&self) -> &SideTable
        ensures { result.now ≡ self.now.table }
    {
        &self.table
    }

    /// The classes of the table's corners, as `label_vertices` of the table numbers them.
    pub fn classes(&self) -> &Classes
        ensures { IsLabelled self.now.table.faces (gluing_of self.now.table) result.now.of_corner result.now.count result.now.ends }
    {
        &self.classes
    }

    /// The classes of the table's corners alone: the table is freed.
    pub fn into_classes(self) -> Classes
        ensures { IsLabelled self.table.faces (gluing_of self.table) result.of_corner result.count result.ends }
    {
        self.classes
    }

    /// The table, given back.
    pub fn into_table(self) -> SideTable
        ensures { result ≡ self.table }
    {
        self.table
    }
}
