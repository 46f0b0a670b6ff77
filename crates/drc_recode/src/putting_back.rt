//! A geometry in the order that its faces, or the points of a cloud, had before they were renumbered.

ghost use Rattle.std.specs.Prelude.{◌≡◌, IfOk, length, not};
ghost use Rattle.drc_base.specs.Refusals.{Answers};
ghost use Rattle.mesh_model.specs.declared.geometries.Geometry.TheVariants as geometry;
ghost use Rattle.mesh_model.specs.Contents.{is_mesh};
ghost use Rattle.attr_heads.specs.FirstFault.{Tests, value_unless};
ghost use Rattle.mesh_model.specs.IsGeometry.{IsGeometry};
ghost use Rattle.mesh_model.specs.Parts.{IsMesh, IsCloud};
ghost use Rattle.mesh_model.specs.Renumbering.{inverted, renumbered};
ghost use Rattle.mesh_model.specs.SameLaws.{count_of};
ghost use Rattle.drc_recode.specs.Inverse.{bad_row};
ghost use Rattle.drc_recode.specs.FirstOrder.{first_order, reordered, CanTurnBack};
ghost use Rattle.drc_recode.specs.PutBack.{fit_fault, put_back};

use crate::inverting::{GREATEST_TURN, inverse};
use crate::reordering::reordered_cloud;
use drc_base::{Fault, Kind, Refusal};
use drc_container::renumbered_mesh;
use mesh_model::{Cloud, CornerMesh, Geometry};
use std::alloc::Global;

/// Whether a geometry is a cloud, and how many faces it has, or points where it is a cloud.
fn kind_and_count(g: &Geometry) -> (bool, u32)
    ensures kind { result.0 ≡ not (is_mesh g.now) }
    ensures count { result.1 ≡ count_of g.now }
    ensures sound { IsGeometry g.now }
{
    match g {
        Geometry::Mesh(mesh) => (false, mesh.face_count()),
        Geometry::Cloud(cloud) => (true, cloud.point_count()),
    }
}

/// Refuses a map of the other kind of geometry, or of another number of faces or points.
fn test_fit(cloud: bool, rows: &[(u32, u8)], g: &Geometry) -> Result<(), Fault>
    ensures { Tests (fit_fault cloud rows.now g.now) result }
{
    let (is_cloud, count) = kind_and_count(g);
    if cloud != is_cloud {
        return Err(Fault::new(Kind::MapKind, 0));
    }
    if rows.len() != count as usize {
        return Err(Fault::new(Kind::MapCount, rows.len() as u64));
    }
    Ok(())
}

/// The mesh with its faces in the order before the rows, each turned back; or the first row that can't be
/// turned back.
fn mesh_back(alloc: Global, mesh: &CornerMesh, rows: &[(u32, u8)]) -> Result<CornerMesh, Refusal>
    requires { length rows.now ≡ length mesh.now.faces }
    ensures answer { Answers (λ m. m) (value_unless (bad_row 2 rows.now) (renumbered mesh.now (inverted rows.now))) result }
    ensures can { IfOk result (λ _. CanTurnBack (geometry.Mesh mesh.now) rows.now) }
    ensures sound { IfOk result (λ _. IsMesh mesh.now) }
{
    // For the prover alone: the call states what holds of every mesh.
    let _faces = mesh.face_count();
    let back = inverse(alloc, rows, GREATEST_TURN)?;
    let first = renumbered_mesh(alloc, mesh, back.as_slice())?;
    Ok(first)
}

/// The cloud with its points in the order before the rows; or the first row that can't be turned back.
fn cloud_back(alloc: Global, cloud: &Cloud, rows: &[(u32, u8)]) -> Result<Cloud, Refusal>
    requires { length rows.now ≡ length cloud.now.points }
    ensures answer { Answers (λ c. c) (value_unless (bad_row 0 rows.now) (reordered cloud.now (inverted rows.now))) result }
    ensures can { IfOk result (λ _. CanTurnBack (geometry.Cloud cloud.now) rows.now) }
    ensures sound { IfOk result (λ _. IsCloud cloud.now) }
{
    // For the prover alone: the call states what holds of every cloud.
    let _points = cloud.point_count();
    let back = inverse(alloc, rows, 0)?;
    let first = reordered_cloud(alloc, cloud, back.as_slice())?;
    Ok(first)
}

/// The geometry in the order before the rows of a map, of a cloud or of a mesh; or why it can't be put back.
/// The geometry as it was is freed.
pub fn put_back(
    alloc: Global,
    cloud: bool,
    rows: &[(u32, u8)],
    g: Geometry,
) -> Result<Geometry, Refusal>
    ensures answer { Answers (λ first. first) (put_back cloud rows.now g) result }
    ensures first { IfOk result (λ first. first ≡ first_order g rows.now) }
    ensures can { IfOk result (λ _. CanTurnBack g rows.now) }
    ensures sound { IfOk result (λ _. IsGeometry g) }
{
    test_fit(cloud, rows, &g)?;
    match g {
        Geometry::Mesh(mesh) => Ok(Geometry::Mesh(mesh_back(alloc, &mesh, rows)?)),
        Geometry::Cloud(points) => Ok(Geometry::Cloud(cloud_back(alloc, &points, rows)?)),
    }
}
