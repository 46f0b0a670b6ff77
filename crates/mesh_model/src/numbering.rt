//! The points of a mesh that is given by the rows of its corners: equal rows are one point, and the
//! points are numbered in the order in which their rows come first.

ghost use Rattle.std.specs.Prelude.{◌≡◌, ◌*◌, ◌<◌, ℕ, [], All, length, map, slice_index, slice_index_or, zip, IfOk};
ghost use Rattle.mesh_model.specs.Assembled.{Columns};
ghost use Rattle.mesh_model.specs.Groups.{group_tables};
ghost use Rattle.attr_heads.specs.Head.{width_of};
ghost use Rattle.mesh_model.specs.Items.{AreItemFaces};
ghost use Rattle.mesh_model.specs.Parts.{rows_of};
ghost use Rattle.mesh_model.specs.RowIndex.{RowsAreNumbered, AreNumberedFaces, AreTwins};
ghost use Rattle.mesh_model.specs.Vertices.{AreGroups};

use crate::counted_rows::CountedRows;
use crate::groups::AttrGroup;
use crate::items::{ItemFaces, items_of};
use crate::row_index::twins_of;
use crate::row_rules::stored_row;
use attr_heads::Head;
use drc_base::Memory;
use std::alloc::Global;

/// The points of a mesh, and its faces by their numbers.
#[derive(Drop)]
pub(crate) struct Numbering {
    /// The points of each face.
    pub faces: Vec<[u32; 3]>,
    /// The rows of the points, one after another.
    pub cells: Vec<i32>,
    /// How many points there are.
    pub count: u32,
}

/// Points as rows.
#[derive(Drop)]
struct Points {
    cells: Vec<i32>,
    count: u32,
}

/// Keeps of equal rows the first one as a point, and puts the number of its point in the place of each row's link to
/// an earlier one.
fn merge(
    alloc: Global,
    width: u32,
    count: u32,
    cells: &[i32],
    twins: &mut [u32],
) -> Result<Points, Memory>
    requires whole { length cells.now ≡ count * width }
    requires wide { 0 < width }
    requires long { length twins.old ≡ count }
    requires twins { AreTwins (rows_of width cells.now) count twins.old }
    ensures points { IfOk result (λ points. RowsAreNumbered (rows_of width cells.now) count twins.new (rows_of width points.cells.items)) }
    ensures stored { IfOk result (λ points. length points.cells.items ≡ points.count * width) }
{
    let mut kept = Vec::with_capacity(alloc, cells.len())?;
    let mut points: u32 = 0;
    for i in 0..count {
        let twin = twins[i as usize];
        if twin != 0 {
            twins[i as usize] = twins[twin as usize - 1];
            continue;
        }
        twins[i as usize] = points;
        points += 1;
        kept.extend_from_slice(stored_row(cells, width, count, i))?;
    }
    Ok(Points {
        cells: kept,
        count: points,
    })
}

/// Puts the number of its point in the place of each item of each face.
fn renumber(faces: &mut [[u32; 3]], numbers: &[u32])
    requires { All (λ face. All (λ item. item < length numbers.now) face) faces.old }
    ensures { (f : ℕ) → f < length faces.old →
        slice_index_or faces.new f [] ≡ map (λ item. slice_index numbers.now item) (slice_index_or faces.old f []) }
{
    for f in 0..faces.len() {
        let face = faces[f];
        faces[f] = [
            numbers[face[0] as usize],
            numbers[face[1] as usize],
            numbers[face[2] as usize],
        ];
    }
}

/// The points of items of which some have equal rows.
fn merge_items(
    alloc: Global,
    width: u32,
    items: ItemFaces,
    twins: Vec<u32>,
) -> Result<Numbering, Memory>
    requires whole { length items.cells.items ≡ items.count * width }
    requires wide { 0 < width }
    requires faces { All (λ face. All (λ item. item < items.count) face) items.faces.items }
    requires long { length twins.items ≡ items.count }
    requires twins { AreTwins (rows_of width items.cells.items) items.count twins.items }
    ensures numbering { IfOk result (λ n. (columns : Columns) (faces : ℕ) →
        AreItemFaces columns faces items.faces.items (rows_of width items.cells.items) →
        AreNumberedFaces columns faces n.faces.items (rows_of width n.cells.items)) }
    ensures stored { IfOk result (λ n. length n.cells.items ≡ n.count * width) }
{
    let mut numbers = twins;
    let points = merge(
        alloc,
        width,
        items.count,
        items.cells.as_slice(),
        numbers.as_mut_slice(),
    )?;
    let mut faces = items.faces;
    renumber(faces.as_mut_slice(), numbers.as_slice());
    Ok(Numbering {
        faces,
        cells: points.cells,
        count: points.count,
    })
}

/// The points of all corners, whose rows have `width` integers.
pub(crate) fn number_corners(
    alloc: Global,
    heads: &[Head],
    groups: &[AttrGroup<'_>],
    faces: u32,
    width: u32,
) -> Result<Numbering, Memory>
    requires groups { AreGroups heads.now groups.now faces }
    requires width { width ≡ width_of heads.now }
    ensures numbering { IfOk result (λ n. AreNumberedFaces (zip heads.now (group_tables groups.now)) faces n.faces.items (rows_of width n.cells.items)) }
    ensures stored { IfOk result (λ n. length n.cells.items ≡ n.count * width) }
{
    let items = items_of(alloc, heads, groups, faces, width)?;
    let mut rows = CountedRows::new(items.cells.as_slice(), width, items.count);
    match twins_of(alloc, &mut rows)? {
        None => Ok(Numbering {
            faces: items.faces,
            cells: items.cells,
            count: items.count,
        }),
        Some(twins) => merge_items(alloc, width, items, twins),
    }
}
