//! The verdict on two geometries and rows.

ghost use Rattle.std.specs.Prelude.{◌≡◌, IfOk};
ghost use Rattle.mesh_model.specs.declared.geometries.Geometry.TheVariants as geometry;
ghost use Rattle.drc_verify.specs.HeadTests.{same_heads};
ghost use Rattle.drc_verify.specs.Judged.{mesh_verdict, cloud_verdict, rows_verdict, found_verdict};

use crate::rows::{wrong_face, wrong_point};
use crate::verdicts::Verdict;
use attr_heads::Head;
use drc_base::Memory;
use mesh_model::{Cloud, CornerMesh, Geometry};
use std::alloc::Global;

/// Whether two lists of heads are equal.
fn heads_agree(a: &[Head], b: &[Head]) -> bool
    ensures { result ≡ same_heads a.now b.now }
{
    mesh_model::same_heads(a, b)
}

/// The verdict by the first row that is wrong.
fn verdict_of(wrong: Option<u64>) -> Verdict
    ensures { result ≡ found_verdict wrong }
{
    match wrong {
        None => Verdict::Same,
        Some(row) => Verdict::Row(row),
    }
}

/// The verdict on two meshes.
fn judge_meshes(
    alloc: Global,
    m: &CornerMesh,
    n: &CornerMesh,
    rows: &[(u32, u8)],
) -> Result<Verdict, Memory>
    ensures { IfOk result (λ v. v ≡ mesh_verdict m.now n.now rows.now) }
{
    if !heads_agree(m.heads(), n.heads()) {
        return Ok(Verdict::Heads);
    }
    let count = rows.len();
    if count != m.face_count() as usize || count != n.face_count() as usize {
        return Ok(Verdict::Rows(count as u64));
    }
    let wrong = wrong_face(alloc, m, n, rows)?;
    Ok(verdict_of(wrong))
}

/// The verdict on two clouds.
fn judge_clouds(
    alloc: Global,
    given: &Cloud,
    read: &Cloud,
    rows: &[(u32, u8)],
) -> Result<Verdict, Memory>
    ensures { IfOk result (λ v. v ≡ cloud_verdict given.now read.now rows.now) }
{
    if !heads_agree(given.heads(), read.heads()) {
        return Ok(Verdict::Heads);
    }
    let count = rows.len();
    if count != given.point_count() as usize || count != read.point_count() as usize {
        return Ok(Verdict::Rows(count as u64));
    }
    let wrong = wrong_point(alloc, given, read, rows)?;
    Ok(verdict_of(wrong))
}

/// The verdict on a mesh, a geometry, and the rows of a map of a mesh or of a cloud.
pub(crate) fn judge_mesh(
    alloc: Global,
    cloud: bool,
    rows: &[(u32, u8)],
    m: &CornerMesh,
    n: &Geometry,
) -> Result<Verdict, Memory>
    ensures { IfOk result (λ v. v ≡ rows_verdict cloud (geometry.Mesh m.now) n.now rows.now) }
{
    match n {
        Geometry::Mesh(read) if !cloud => judge_meshes(alloc, m, read, rows),
        _ => Ok(Verdict::Heads),
    }
}

/// The verdict on a cloud, a geometry, and the rows of a map of a mesh or of a cloud.
fn judge_cloud(
    alloc: Global,
    cloud: bool,
    rows: &[(u32, u8)],
    m: &Cloud,
    n: &Geometry,
) -> Result<Verdict, Memory>
    ensures { IfOk result (λ v. v ≡ rows_verdict cloud (geometry.Cloud m.now) n.now rows.now) }
{
    match n {
        Geometry::Cloud(read) if cloud => judge_clouds(alloc, m, read, rows),
        _ => Ok(Verdict::Heads),
    }
}

/// The verdict on a geometry `g`, another one `n`, and the rows of a map of a mesh or of a cloud.
pub(crate) fn judge(
    alloc: Global,
    cloud: bool,
    rows: &[(u32, u8)],
    g: &Geometry,
    n: &Geometry,
) -> Result<Verdict, Memory>
    ensures { IfOk result (λ v. v ≡ rows_verdict cloud g.now n.now rows.now) }
{
    match g {
        Geometry::Mesh(m) => judge_mesh(alloc, cloud, rows, m, n),
        Geometry::Cloud(c) => judge_cloud(alloc, cloud, rows, c, n),
    }
}
