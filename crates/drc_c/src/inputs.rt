//! Geometries from arrays of the caller.

ghost use Rattle.std.specs.Prelude.{◌≡◌, ◌≤◌, true, Err, Some, length, map};
ghost use Rattle.drc_base.specs.declared.faults.Fault.{Fault as AnyFault};
ghost use Rattle.drc_base.specs.declared.faults.Refusal.TheVariants as refusal;
ghost use Rattle.drc_base.specs.Refusals.{Answers};
ghost use Rattle.attr_heads.specs.FirstFault.{answer_of, value_unless};
ghost use Rattle.mesh_model.specs.Parts.{AreRows};
ghost use Rattle.drc_c.specs.Early.{arrays_early_fault};
ghost use Rattle.drc_c.specs.Heads.{head_meant};
ghost use Rattle.drc_c.specs.Inputs.{width_told, are_clear, are_whole, do_fit, geometry_made, geometry_meant};

use crate::early::test_early;
use crate::heads::{DrcHead, heads_meant};
use attr_heads::Head;
use drc_base::{MAX_ATTRIBUTES, Refusal};
use mesh_model::{Geometry, GeometryView};
use std::alloc::Global;

/// The number of a cloud.
pub const CLOUD: u32 = 0;

/// The number of a mesh.
pub const MESH: u32 = 1;

/// How many integers a point has.
pub fn width_told(heads: &[DrcHead]) -> u32
    requires { length heads.now ≤ 16 }
    ensures { result ≡ width_told heads.now }
{
    let mut width: u32 = 0;
    for head in heads {
        width += head.comps as u32;
    }
    width
}

/// Whether the integers are whole rows of so many attributes as there may be.
fn are_whole(heads: &[DrcHead], values: &[i32]) -> bool
    ensures { result ≡ are_whole heads.now values.now }
{
    if heads.len() > MAX_ATTRIBUTES as usize {
        return true;
    }
    let width = width_told(heads);
    width == 0 || values.len() % width as usize == 0
}

/// Whether what is spare in heads is 0.
fn are_clear(heads: &[DrcHead]) -> bool
    ensures { result ≡ are_clear heads.now }
{
    heads.iter().all(|head| head.spare == 0)
}

/// Whether arrays fit each other: a mesh or a cloud, which has no faces, of heads with nothing in what is spare, and of whole
/// rows.
pub fn do_fit(mesh: u32, heads: &[DrcHead], corners: &[[u32; 3]], values: &[i32]) -> bool
    ensures { result ≡ do_fit mesh heads.now corners.now values.now }
{
    (mesh == MESH || (mesh == CLOUD && corners.is_empty()))
        && are_clear(heads)
        && are_whole(heads, values)
}

/// The heads that arrays mean, or the first fault of the arrays that comes before out of memory: of the heads, and of
/// the numbers of points, values and faces.
pub fn heads_tested(
    alloc: Global,
    mesh: u32,
    heads: &[DrcHead],
    corners: &[[u32; 3]],
    values: &[i32],
) -> Result<Vec<Head>, Refusal>
    ensures answer { Answers (λ v. v.items) (value_unless (arrays_early_fault mesh heads.now corners.now values.now) (map head_meant heads.now)) result }
    ensures early { (f : AnyFault) → arrays_early_fault mesh heads.now corners.now values.now ≡ Some f → result ≡ Err (refusal.Fault f) }
{
    test_early(mesh, heads, corners, values)?;
    let heads = heads_meant(alloc, heads)?;
    Ok(heads)
}

/// The geometry of heads and of the arrays, which are lent, or its first fault. It takes no memory.
#[tactic(auto, unfolding(crate::specs::Inputs::geometry_made))]
pub fn geometry_lent<'g>(
    mesh: u32,
    heads: &'g [Head],
    corners: &'g [[u32; 3]],
    values: &'g [i32],
) -> Result<GeometryView<'g>, Refusal>
    requires { AreRows heads.now values.now }
    ensures { result ≡ answer_of (geometry_made mesh heads.now corners.now values.now) }
{
    if mesh == MESH {
        GeometryView::new(heads, values, Some(corners))
    } else {
        GeometryView::new(heads, values, None)
    }
}

/// The geometry that arrays mean, of its own, or its first fault. Faults of the heads, and of the numbers of points, values
/// and faces, come before out of memory.
#[tactic(auto, using(crate::proofs::EarlyFaults::early_refused))]
pub fn geometry_meant(
    alloc: Global,
    mesh: u32,
    heads: &[DrcHead],
    corners: &[[u32; 3]],
    values: &[i32],
) -> Result<Geometry, Refusal>
    requires { do_fit mesh heads.now corners.now values.now ≡ true }
    ensures answer { Answers (λ g. g) (geometry_meant mesh heads.now corners.now values.now) result }
    ensures early { (f : AnyFault) → arrays_early_fault mesh heads.now corners.now values.now ≡ Some f → result ≡ Err (refusal.Fault f) }
{
    let heads = heads_tested(alloc, mesh, heads, corners, values)?;
    let g = geometry_lent(mesh, heads.as_slice(), corners, values)?;
    let copy = g.copied(alloc)?;
    Ok(copy)
}
