//! A surface under new numbers of its faces.

ghost use Rattle.std.specs.Prelude.{◌≡◌, ◌<◌, IfOk};
ghost use Rattle.corner_table.specs.Table.{gluing_of};
ghost use Rattle.corner_table.specs.Carried.{IsRenumbering};
ghost use Rattle.pairing.specs.CarriedPairs.{carried as carried_gluing};

use corner_table::{SideTable, Steps};
use drc_base::Memory;
use std::alloc::Global;
use std::marker::Brand;
use std::sync::ledger::{Blank, Ledger};

/// A surface under new numbers, under a count of calls that nothing else takes part in.
fn counted_surface<L: Ledger>(
    alloc: Global,
    sides: &SideTable,
    rows: &[(u32, u8)],
    blank: Blank,
) -> Result<SideTable, Memory>
    requires rows { IsRenumbering sides.now.faces rows.now }
    requires name { blank.name ≡ L.name }
    requires parts { blank.parts ≡ L.parts }
    requires some { 0 < L.parts }
    ensures faces { IfOk result (λ t. t.faces ≡ sides.now.faces) }
    ensures pairs { IfOk result (λ t. gluing_of t ≡ carried_gluing (gluing_of sides.now) rows.now) }
{
    // For the prover alone: the call states that the table is a surface.
    let _faces = sides.face_count();
    let mut steps = Steps::<L>::new(blank);
    sides.renumbered(alloc, rows, &mut steps)
}

/// A surface under new numbers of its faces. The one that was is freed.
pub fn carried_surface(
    alloc: Global,
    sides: SideTable,
    rows: &[(u32, u8)],
) -> Result<SideTable, Memory>
    requires { IsRenumbering sides.faces rows.now }
    ensures faces { IfOk result (λ t. t.faces ≡ sides.faces) }
    ensures pairs { IfOk result (λ t. gluing_of t ≡ carried_gluing (gluing_of sides) rows.now) }
{
    counted_surface::<Brand>(alloc, &sides, rows, Blank::new(1))
}
