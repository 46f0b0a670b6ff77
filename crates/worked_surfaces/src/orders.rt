//! Orders of entries, by the corners at which these stand, and surfaces with them.

ghost use Rattle.std.specs.Prelude.{◌≡◌, ◌*◌, ◌/◌, ◌<◌, All, IfOk, IfSome, IsTrue, length, map};
ghost use Rattle.corner_table.specs.Sides.{side_at};
ghost use Rattle.corner_table.specs.Table.{free_entry};
ghost use Rattle.corner_table.specs.Ordered.{AreFaces, FitTogether, IsOrdered, ordered_from};

use crate::tables::glued;
use corner_table::{Classes, FREE, FaceAcross, Order, SideTable, Steps, face_across};
use drc_base::{MAX_FACES, Memory, Sequence};
use std::alloc::Global;
use std::marker::Brand;
use std::sync::ledger::{Blank, Ledger};

/// Whether all numbers are below one.
pub fn all_below(numbers: &[u32], end: u32) -> bool
    ensures { IsTrue result → All (λ n. n < end) numbers.now }
{
    for i in 0..numbers.len() {
        let number = numbers[i];
        if number >= end {
            return false;
        }
    }
    true
}

/// The entry of each class: the last one at a corner of it, and `FREE` where there is none.
fn entries_of_classes(alloc: Global, classes: &Classes, corners: &[u32]) -> Result<Vec<u32>, Memory>
    requires { length corners.now < free_entry }
    ensures { IfOk result (λ v. length v.items ≡ classes.now.count) }
{
    let labels = classes.of_corner.as_slice();
    let mut entries = vec![in alloc; FREE; classes.count as usize]?;
    for e in 0..corners.len() {
        if let Some(class) = labels.get(corners[e] as usize)
            && let Some(entry) = entries.get_mut(*class as usize)
        {
            *entry = e as u32;
        }
    }
    Ok(entries)
}

/// The faces across the sides of these corners of entries.
fn faces_of(
    alloc: Global,
    across: &[u32],
    labels: &[u32],
    entry_of_class: &[u32],
    corners: &[u32],
) -> Result<Vec<FaceAcross>, Memory>
    requires few { length corners.now < free_entry }
    requires fit { FitTogether (length labels.now / 3) across.now labels.now entry_of_class.now }
    requires corners { All (λ c. c < length labels.now) corners.now }
    ensures { IfOk result (λ f. AreFaces (ordered_from across.now labels.now entry_of_class.now (map side_at corners.now)) f.items) }
{
    let mut faces = Vec::new(alloc);
    for e in 0..corners.len() {
        let face = face_across(across, labels, entry_of_class, e, corners[e]);
        faces.push(FaceAcross::kept(face))?;
    }
    Ok(faces)
}

/// The order over a table with these classes, by a count of its own.
fn order_by<L: Ledger>(
    alloc: Global,
    t: &SideTable,
    corners: &[u32],
    blank: Blank,
) -> Result<Option<(Classes, Order)>, Memory>
    requires few { length corners.now < free_entry }
    requires name { blank.name ≡ L.name }
    requires parts { blank.parts ≡ L.parts }
    requires some { 0 < L.parts }
    ensures { IfOk result (λ o. IfSome o (λ p. IsOrdered t.now p.0.of_corner p.1)) }
{
    let mut steps = Steps::<L>::new(blank);
    let classes = t.label_vertices(alloc, &mut steps)?;
    if !all_below(corners, 3 * t.face_count()) {
        return Ok(None);
    }
    let entries = entries_of_classes(alloc, &classes, corners)?;
    let across = t.across(&mut steps);
    let labels = classes.of_corner.as_slice();
    let faces = faces_of(alloc, across, labels, entries.as_slice(), corners)?;
    let order = Order {
        corner_of_entry: Sequence::from_vec(Vec::from_slice(alloc, corners)?),
        entry_of_class: Sequence::from_vec(entries),
        faces_across: Sequence::from_vec(faces),
    };
    Ok(Some((classes, order)))
}

/// The classes of a table's corners, and the order of entries that stand at these corners, by their numbers. None where
/// one isn't a corner of the table. Fails only when out of memory.
fn order_of(
    alloc: Global,
    t: &SideTable,
    corners: &[u32],
) -> Result<Option<(Classes, Order)>, Memory>
    requires { length corners.now < free_entry }
    ensures { IfOk result (λ o. IfSome o (λ p. IsOrdered t.now p.0.of_corner p.1)) }
{
    order_by::<Brand>(alloc, t, corners, Blank::new(1))
}

/// A surface by its pairs of sides, and an order of entries by the corners at which these stand, all by their numbers.
pub struct WorkedOrder {
    pub faces: u32,
    pub pairs: &'static [(u32, u32)],
    pub corners: &'static [u32],
}

/// Two faces of a square, and an order of their four corners in which the first face comes first.
pub static SQUARE_ORDER: WorkedOrder = WorkedOrder {
    faces: 2,
    pairs: &[(0, 4)],
    corners: &[1, 2, 0, 4],
};

/// The table of a surface, the classes of its corners and its order. None where it has more faces than a table, or as
/// many entries as `FREE`, or one isn't at a corner of it. Fails only when out of memory.
pub fn ordered(
    alloc: Global,
    surface: &WorkedOrder,
) -> Result<Option<(SideTable, Classes, Order)>, Memory>
    ensures { IfOk result (λ o. IfSome o (λ p. IsOrdered p.0 p.1.of_corner p.2)) }
{
    if surface.faces > MAX_FACES || surface.corners.len() >= FREE as usize {
        return Ok(None);
    }
    let sides = glued(alloc, surface.faces, surface.pairs)?;
    match order_of(alloc, &sides, surface.corners)? {
        Some((classes, order)) => Ok(Some((sides, classes, order))),
        None => Ok(None),
    }
}
