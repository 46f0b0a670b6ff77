//! Tables made of pairs of sides, and their entries.

ghost use Rattle.std.specs.Prelude.{◌≡◌, ◌<◌, ◌≤◌, IfOk};
ghost use Rattle.drc_base.specs.declared.limits.TheConstants.{MAX_FACES};
ghost use Rattle.corner_table.specs.Table.{room_of};

use corner_table::{SideTable, Steps, side_with};
use drc_base::Memory;
use std::alloc::Global;
use std::marker::Brand;
use std::sync::ledger::{Blank, Ledger};

/// Adds all faces that there is room for.
fn add_faces<L: Ledger>(table: &mut SideTable, faces: u32, steps: &mut Steps<L>)
    requires none { table.old.faces ≡ 0 }
    requires room { room_of table.old ≡ faces }
    ensures { table.new.faces ≡ faces }
{
    for _ in 0..faces {
        let _ = table.add_face(steps);
    }
}

/// Glues two sides, where they are free sides of two faces.
fn glue_pair<L: Ledger>(table: &mut SideTable, pair: (u32, u32), steps: &mut Steps<L>)
    ensures { table.new.faces ≡ table.old.faces }
{
    let (a, b) = (side_with(pair.0), side_with(pair.1));
    if a.face >= table.face_count() || b.face >= table.face_count() || a.face == b.face {
        return;
    }
    match (table.other(a, steps), table.other(b, steps)) {
        (None, None) => table.glue(a, b, steps),
        _ => {}
    }
}

/// The table of these faces and pairs, with its calls counted in the ledger of a blank.
fn glued_by<L: Ledger>(
    alloc: Global,
    faces: u32,
    pairs: &[(u32, u32)],
    blank: Blank,
) -> Result<SideTable, Memory>
    requires few { faces ≤ MAX_FACES }
    requires name { blank.name ≡ L.name }
    requires parts { blank.parts ≡ L.parts }
    requires some { 0 < L.parts }
    ensures { IfOk result (λ t. t.faces ≡ faces) }
{
    let mut steps = Steps::<L>::new(blank);
    let mut table = SideTable::with_room(alloc, faces)?;
    add_faces(&mut table, faces, &mut steps);
    for pair in pairs {
        glue_pair(&mut table, *pair, &mut steps);
    }
    Ok(table)
}

/// The table of so many faces with these pairs of sides glued, by their numbers; a pair that isn't two free sides of
/// two faces is left out. Fails only when out of memory.
pub fn glued(alloc: Global, faces: u32, pairs: &[(u32, u32)]) -> Result<SideTable, Memory>
    requires few { faces ≤ MAX_FACES }
    ensures { IfOk result (λ t. t.faces ≡ faces) }
{
    glued_by::<Brand>(alloc, faces, pairs, Blank::new(1))
}

/// Whether a table has these entries, by a count of its own.
fn entries_by<L: Ledger>(table: &SideTable, entries: &[u32], blank: Blank) -> bool
    requires name { blank.name ≡ L.name }
    requires parts { blank.parts ≡ L.parts }
    requires some { 0 < L.parts }
{
    let mut steps = Steps::<L>::new(blank);
    table.across(&mut steps) == entries
}

/// Whether a table has these entries: for each side, by its number 3f + k, the number of the side across, and `FREE`
/// where there is none.
pub fn has_entries(table: &SideTable, entries: &[u32]) -> bool {
    entries_by::<Brand>(table, entries, Blank::new(1))
}
