//! How many rows a map has, beside how many a geometry wants: this is tested before rows are copied.

ghost use Rattle.std.specs.Prelude.{◌≡◌, ◌⊎◌, map, not, Err, IfOk, length};
ghost use Rattle.std.specs.Result.{IfErr};
ghost use Rattle.drc_base.specs.declared.faults.Fault.{Fault as AnyFault};
ghost use Rattle.drc_base.specs.declared.faults.Refusal.TheVariants as refusal;
ghost use Rattle.drc_base.specs.Profile.{profile_numbered};
ghost use Rattle.drc_base.specs.Refusals.{Refuses};
ghost use Rattle.attr_heads.specs.FirstFault.{Tests};
ghost use Rattle.mesh_model.specs.Contents.{is_mesh};
ghost use Rattle.mesh_model.specs.SameLaws.{count_of};
ghost use Rattle.drc_recode.specs.PutBack.{fit_fault};
ghost use Rattle.stream_counts.specs.Counts.{counts_declared_in};
ghost use Rattle.drc_c.specs.Recoded.{restored_told};
ghost use Rattle.drc_c.specs.Streams.{row_meant};

use crate::streams::DrcRow;
use drc_base::{Fault, Kind, Profile, Refusal};
use drc_container::decode;
use mesh_model::Geometry;
use std::alloc::Global;
use stream_counts::{DeclaredCounts, declared_counts, declared_faults_come_first};

/// How many faces a mesh has, or points a cloud.
pub fn count_of(g: &Geometry) -> u32
    ensures { result ≡ count_of g.now }
{
    match g {
        Geometry::Mesh(mesh) => mesh.face_count(),
        Geometry::Cloud(cloud) => cloud.point_count(),
    }
}

/// Whether a geometry is a cloud.
fn is_cloud(g: &Geometry) -> bool
    ensures { result ≡ not (is_mesh g.now) }
{
    match g {
        Geometry::Mesh(_) => false,
        Geometry::Cloud(_) => true,
    }
}

/// How many faces a mesh declares, or points a cloud.
fn declared_count(counts: DeclaredCounts) -> u32 {
    if counts.mesh {
        counts.faces
    } else {
        counts.points
    }
}

/// The fault of a map of the other kind of geometry, or of another number of faces or points.
fn test_fit(cloud: bool, rows: &[DrcRow], g: &Geometry) -> Result<(), Fault>
    ensures { Tests (fit_fault cloud (map row_meant rows.now) g.now) result }
{
    if cloud != is_cloud(g) {
        return Err(Fault::new(Kind::MapKind, 0));
    }
    if rows.len() != count_of(g) as usize {
        return Err(Fault::new(Kind::MapCount, rows.len() as u64));
    }
    Ok(())
}

/// Refuses a stream that can't be put back by so many rows, where they aren't as many as it declares faces, or points where it is a
/// cloud: by its own first fault, or by that of a map that doesn't fit. The rows aren't copied. Faults of what it declares come before
/// out of memory.
#[tactic(auto, using(crate::proofs::RowCounts::refuses_then, crate::proofs::RowCounts::unfit_refused))]
pub fn test_rows(
    alloc: Global,
    cloud: bool,
    rows: &[DrcRow],
    bytes: &[u8],
    profile: Profile,
) -> Result<(), Refusal>
    ensures refused { IfErr result (λ e. Refuses (restored_told (profile_numbered profile.number) cloud rows.now bytes.now) e) }
    ensures early { (f : AnyFault) → counts_declared_in (profile_numbered profile.number) bytes.now ≡ Err f
        → result ≡ Err (refusal.Fault f) }
{
    declared_faults_come_first();
    let counts = declared_counts(bytes, profile)?;
    if rows.len() == declared_count(counts) as usize {
        return Ok(());
    }
    let g = decode(alloc, bytes, profile)?;
    test_fit(cloud, rows, &g)?;
    Ok(())
}
