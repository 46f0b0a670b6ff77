//! The tests that a whole geometry passes, in their order.

ghost use Rattle.std.specs.Prelude.{◌≡◌, ◌/◌, ◌∷◌, [], All, IsTrue, None, IfOk, length};
ghost use Rattle.attr_heads.specs.FirstFault.{Tests, first_fault};
ghost use Rattle.attr_heads.specs.Head.{heads_fault, width_of};
ghost use Rattle.mesh_model.specs.Parts.{AreRows, IsCloud, IsMesh, cloud_fault, count_fault, faces_fault, index_fault, mesh_fault, range_fault, rows_of};
ghost use Rattle.mesh_model.specs.Stored.{AreStored};

use crate::row_rules::{test_counts, test_face_count, test_indices, test_typed};
use attr_heads::{Head, test_heads};
use drc_base::Fault;

/// How integers are rows: how many a row has, and how many rows there are.
#[derive(Drop)]
pub(crate) struct RowShape {
    pub(crate) width: u32,
    pub(crate) count: u32,
}

/// How integers are rows of these heads, or the first fault of the heads, the number of points and that of values.
fn test_shape(heads: &[Head], points: &[i32]) -> Result<RowShape, Fault>
    requires { AreRows heads.now points.now }
    ensures tested { Tests (first_fault (heads_fault heads.now ∷ count_fault (length points.now / width_of heads.now) (width_of heads.now) ∷ [])) result }
    ensures stored { IfOk result (λ r. AreStored heads.now points.now r.width r.count) }
    ensures count { IfOk result (λ r. r.count ≡ length points.now / width_of heads.now) }
    ensures passes { IfOk result (λ r. (heads_fault heads.now ≡ None) × (count_fault r.count r.width ≡ None)) }
{
    let width = test_heads(heads)?;
    let count = points.len() as u64 / width as u64;
    test_counts(count, width)?;
    Ok(RowShape {
        width,
        count: count as u32,
    })
}

/// The first fault of faces: that of their number, then that of the first one with a number that is no number of a point.
fn test_faces(points: u32, faces: &[[u32; 3]]) -> Result<(), Fault>
    ensures tested { Tests (first_fault (faces_fault faces.now ∷ index_fault points faces.now ∷ [])) result }
    ensures three { All (λ face. length face ≡ 3) faces.now }
{
    test_face_count(faces)?;
    test_indices(points, faces)
}

/// How the integers of a mesh are rows, or its first fault; where they are known to be typed, they aren't tested.
pub(crate) fn test_mesh(
    heads: &[Head],
    points: &[i32],
    faces: &[[u32; 3]],
    typed: bool,
) -> Result<RowShape, Fault>
    requires rows { AreRows heads.now points.now }
    requires typed { IsTrue typed → range_fault heads.now points.now ≡ None }
    ensures tested { Tests (mesh_fault heads.now points.now faces.now) result }
    ensures stored { IfOk result (λ r. AreStored heads.now points.now r.width r.count) }
    ensures sound { IfOk result (λ r. IsMesh (record { heads = heads.now; points = rows_of r.width points.now; faces = faces.now })) }
{
    let shape = test_shape(heads, points)?;
    test_faces(shape.count, faces)?;
    test_typed(heads, shape.width, points, typed)?;
    Ok(shape)
}

/// How the integers of a cloud are rows, or its first fault; where they are known to be typed, they aren't tested.
pub(crate) fn test_cloud(heads: &[Head], points: &[i32], typed: bool) -> Result<RowShape, Fault>
    requires rows { AreRows heads.now points.now }
    requires typed { IsTrue typed → range_fault heads.now points.now ≡ None }
    ensures tested { Tests (cloud_fault heads.now points.now) result }
    ensures stored { IfOk result (λ r. AreStored heads.now points.now r.width r.count) }
    ensures sound { IfOk result (λ r. IsCloud (record { heads = heads.now; points = rows_of r.width points.now })) }
{
    let shape = test_shape(heads, points)?;
    test_typed(heads, shape.width, points, typed)?;
    Ok(shape)
}
