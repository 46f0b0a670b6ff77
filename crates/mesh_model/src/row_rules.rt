//! The tests that the points and faces of a geometry pass, in their order.

ghost use Rattle.std.specs.Prelude.{◌≡◌, ◌+◌, ◌*◌, ◌/◌, ◌<◌, ◌≤◌, ◌^◌, ℕ, [], length, slice_index_or, nat_lt, not, All, position, take, IsTrue, None};
ghost use Rattle.std.specs.List.{list_all};
ghost use Rattle.attr_heads.specs.FirstFault.{Tests};
ghost use Rattle.attr_heads.specs.Head.{heads_fault, row_bounds, width_of};
ghost use Rattle.mesh_model.specs.Parts.{count_fault, faces_fault, index_fault, range_fault, rows_of};

use attr_heads::{Bounds, Head};
use drc_base::{Fault, Kind, MAX_FACES, MAX_POINTS, MAX_VALUES};

/// The most integers of a row: as many attributes as there may be, each of as many components.
const MAX_WIDTH: usize = 128;

/// Row `i` of `count` rows of `width` integers.
pub(crate) fn stored_row(cells: &[i32], width: u32, count: u32, i: u32) -> &[i32]
    requires whole { length cells.now ≡ count * width }
    requires wide { 0 < width }
    requires below { i < count }
    ensures row { result.now ≡ slice_index_or (rows_of width cells.now) i [] }
    ensures len { length result.now ≡ width }
{
    let start = i as usize * width as usize;
    let end = start + width as usize;
    &cells[start..end]
}

/// PointLimit at the number of points, then ValueLimit at points times width.
pub(crate) fn test_counts(points: u64, width: u32) -> Result<(), Fault>
    requires { points * width < 2 ^ 64 }
    ensures { Tests (count_fault points width) result }
{
    if points > MAX_POINTS as u64 {
        return Err(Fault::new(Kind::PointLimit, points));
    }
    let values = points * width as u64;
    if values > MAX_VALUES as u64 {
        return Err(Fault::new(Kind::ValueLimit, values));
    }
    Ok(())
}

/// FaceLimit at the number of faces.
pub(crate) fn test_face_count(faces: &[[u32; 3]]) -> Result<(), Fault>
    ensures tested { Tests (faces_fault faces.now) result }
    ensures three { All (λ face. length face ≡ 3) faces.now }
{
    if faces.len() > MAX_FACES as usize {
        return Err(Fault::new(Kind::FaceLimit, faces.len() as u64));
    }
    Ok(())
}

/// Whether each number of a face is below the number of points.
fn names_points(points: u32, face: &[u32; 3]) -> bool
    ensures { result ≡ list_all (λ p. nat_lt p points) face.now }
{
    face.iter().all(|p| *p < points)
}

/// The first face with a number that is no number of a point.
fn first_outside(points: u32, faces: &[[u32; 3]]) -> Option<usize>
    ensures { result ≡ position (λ face. not (list_all (λ p. nat_lt p points) face)) faces.now }
{
    faces.iter().position(|face| !names_points(points, face))
}

/// IndexRange at the first face with a number that is no number of a point.
#[tactic(auto, unfolding(crate::specs::Parts::index_fault))]
pub(crate) fn test_indices(points: u32, faces: &[[u32; 3]]) -> Result<(), Fault>
    ensures { Tests (index_fault points faces.now) result }
{
    match first_outside(points, faces) {
        None => Ok(()),
        Some(at) => Err(Fault::new(Kind::IndexRange, at as u64)),
    }
}

/// The bounds of each integer of a row, at the front of an array.
fn column_bounds(heads: &[Head]) -> [Bounds; MAX_WIDTH]
    requires heads { heads_fault heads.now ≡ None }
    requires width { width_of heads.now ≤ 128 }
    ensures { take (width_of heads.now) result ≡ row_bounds heads.now }
{
    let mut bounds = [Bounds {
        least: 0,
        greatest: 0,
    }; MAX_WIDTH];
    let mut at: usize = 0;
    for head in heads {
        let end = at + head.comps as usize;
        bounds[at..end].fill(head.bounds());
        at = end;
    }
    bounds
}

/// ValueRange at the first cell outside the bounds of its column in the row.
#[tactic(auto, unfolding(crate::specs::Parts::range_fault))]
fn test_values(heads: &[Head], width: u32, cells: &[i32]) -> Result<(), Fault>
    requires heads { heads_fault heads.now ≡ None }
    requires width { width ≡ width_of heads.now }
    requires bounds { (0 < width) × (width ≤ 128) }
    ensures { Tests (range_fault heads.now cells.now) result }
{
    let bounds = column_bounds(heads);
    let mut column: usize = 0;
    for (i, value) in cells.iter().enumerate() {
        if !bounds[column].hold(*value) {
            return Err(Fault::new(Kind::ValueRange, i as u64));
        }
        column += 1;
        if column == width as usize {
            column = 0;
        }
    }
    Ok(())
}

/// ValueRange at the first cell outside the bounds of its column; where it is known that there is none, no cell is
/// looked at.
pub(crate) fn test_typed(
    heads: &[Head],
    width: u32,
    cells: &[i32],
    typed: bool,
) -> Result<(), Fault>
    requires heads { heads_fault heads.now ≡ None }
    requires width { width ≡ width_of heads.now }
    requires bounds { (0 < width) × (width ≤ 128) }
    requires typed { IsTrue typed → range_fault heads.now cells.now ≡ None }
    ensures { Tests (range_fault heads.now cells.now) result }
{
    if typed {
        return Ok(());
    }
    test_values(heads, width, cells)
}
