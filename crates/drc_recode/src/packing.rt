//! A stream's geometry, where its lists lie in the room that decoding leaves.
//!
//! What decoding makes last lies behind all that it held: the geometry's lists stand in the way of the room
//! in front of them and of that behind. Copied, they lie in the front, and what encodes them finds one piece of room.

ghost use Rattle.std.specs.Prelude.{◌≡◌, Err, IfOk};
ghost use Rattle.drc_base.specs.declared.faults.Fault.{Fault as AnyFault};
ghost use Rattle.drc_base.specs.declared.faults.Refusal.TheVariants as refusal;
ghost use Rattle.drc_base.specs.Profile.{profile_numbered};
ghost use Rattle.drc_base.specs.Refusals.{Answers};
ghost use Rattle.drc_container.specs.reading.Stream.{meaning_in, declared_of};

use crate::reordering::copies_of;
use drc_base::{Memory, Profile, Refusal};
use drc_container::decode;
use mesh_model::{CornerMesh, Geometry};
use std::alloc::Global;

/// An equal mesh.
fn copied_mesh(alloc: Global, mesh: &CornerMesh) -> Result<CornerMesh, Memory>
    ensures { IfOk result (λ m. m ≡ mesh.now) }
{
    let faces = Vec::from_slice(alloc, mesh.faces())?;
    let cells = Vec::from_slice(alloc, mesh.cells())?;
    let heads = copies_of(alloc, mesh.heads())?;
    Ok(CornerMesh::of_typed(heads, cells, faces).unwrap())
}

/// The geometry, a mesh as a copy of it. The mesh as it was is freed.
fn packed(alloc: Global, g: Geometry) -> Result<Geometry, Memory>
    ensures { IfOk result (λ p. p ≡ g) }
{
    match g {
        Geometry::Mesh(mesh) => Ok(Geometry::Mesh(copied_mesh(alloc, &mesh)?)),
        Geometry::Cloud(cloud) => Ok(Geometry::Cloud(cloud)),
    }
}

/// The geometry that a stream means in a profile, or its first fault, as `drc_container::decode`: for encoding it again, which
/// takes less memory beside it than beside what `decode` gives.
pub fn decode_packed(alloc: Global, bytes: &[u8], profile: Profile) -> Result<Geometry, Refusal>
    ensures meaning { Answers (λ g. g) (meaning_in (profile_numbered profile.number) bytes.now) result }
    ensures early { (f : AnyFault) → declared_of bytes.now ≡ Err f → result ≡ Err (refusal.Fault f) }
{
    let geometry = decode(alloc, bytes, profile)?;
    let geometry = packed(alloc, geometry)?;
    Ok(geometry)
}
