//! Writing the prelude of a mesh's stream by Edgebreaker, that is its header and connectivity.
//!
//! Behind the connectivity the order of decoding is all that stays of the trace.

ghost use Rattle.std.specs.Prelude.{◌≡◌, ◌<◌, ◌≤◌, ◌^◌, ◌++◌, length, map, All, IfOk, OnOk};
ghost use Rattle.std.specs.Option.{option_map};
ghost use Rattle.drc_base.specs.declared.limits.TheConstants.{MAX_ATTRIBUTES, MAX_FACES, MAX_POINTS as most_points};
ghost use Rattle.mesh_model.specs.Parts.{MeshParts};
ghost use Rattle.mesh_model.specs.declared.geometries.Geometry.TheVariants as geometry;
ghost use Rattle.eb_trace.specs.Writable.{IsWritable};
ghost use Rattle.eb_section.specs.ReadAgain.{IsReadAgain};
ghost use Rattle.eb_section.specs.Written.{connectivity_bytes};
ghost use Rattle.drc_container.specs.writing.Written.{header_bytes};
ghost use Rattle.drc_container.specs.writing.WrittenOnSurface.{decoded, prelude_bytes};
ghost use Rattle.drc_container.specs.writing.Encoded.{ConnectivityReadAgain};
ghost use Rattle.drc_container.specs.surface.AttributeSurfaces.{flag_lists};
ghost use Rattle.drc_container.specs.surface.Traced.{IsTraced, IsSeamedSurface};

use crate::headers::{EDGEBREAKER, MESH, put_header};
use crate::surface::seam_lists::{SeamLists, seams_in};
use crate::surface::seamed_surface::SeamedSurface;
use crate::surface::traced_surfaces::TracedSurface;
use drc_base::{Memory, Sequence};
use eb_section::write_connectivity;
use eb_trace::Traced;
use mesh_model::CornerMesh;
use std::alloc::Global;

/// The order of decoding; the rest of the trace is freed.
fn rows_of(trace: Traced) -> Sequence<(u32, u8)>
    ensures { result ≡ trace.order }
{
    trace.order
}

/// Appends the header of a mesh's stream and its connectivity, with the seam bits of each attribute but the first.
#[tactic(auto, unfolding(crate::specs::writing::Written::header_bytes))]
fn put_prelude(
    alloc: Global,
    out: &mut Vec<u8>,
    trace: &Traced,
    faces: u32,
    valence: bool,
    bits: &[Vec<bool>],
) -> Result<(), Memory>
    requires writable { IsWritable faces trace.now.vertices trace.now.symbols trace.now.events trace.now.starts }
    requires faces { faces ≤ MAX_FACES }
    requires vertices { trace.now.vertices ≤ most_points }
    requires few { length bits.now ≤ MAX_ATTRIBUTES }
    requires short { All (λ v. length v.items < 2 ^ 31) bits.now }
    ensures bytes { OnOk result ((m : MeshParts) → out.new.items ≡ out.old.items ++ (header_bytes 1 (geometry.Mesh m) ++ connectivity_bytes valence faces trace.now (map (λ v. v.items) bits.now))) }
    ensures again { OnOk result (IsReadAgain valence faces trace.now (map (λ v. v.items) bits.now) (connectivity_bytes valence faces trace.now (map (λ v. v.items) bits.now))) }
{
    put_header(out, MESH, EDGEBREAKER)?;
    write_connectivity(alloc, out, trace, faces, valence, bits)?;
    Ok(())
}

/// Appends the prelude of the stream of a mesh whose surface is traced, and answers for each attribute of each side
/// whether it is a seam, where any pair is one.
fn put_prelude_of(
    alloc: Global,
    out: &mut Vec<u8>,
    mesh: &CornerMesh,
    traced: &TracedSurface,
    valence: bool,
) -> Result<Vec<Option<Vec<bool>>>, Memory>
    requires { IsTraced mesh.now traced.now }
    ensures flags { IfOk result (λ v. map (option_map (λ f. f.items)) v.items ≡ flag_lists (decoded mesh.now)) }
    ensures bytes { OnOk result (out.new.items ≡ out.old.items ++ prelude_bytes valence mesh.now) }
    ensures again { OnOk result (ConnectivityReadAgain valence mesh.now) }
{
    let trace = &traced.trace;
    let faces = mesh.face_count();
    let SeamLists { bits, flags } = seams_in(alloc, mesh, trace.order.as_slice(), &traced.sides)?;
    put_prelude(alloc, out, trace, faces, valence, bits.as_slice())?;
    Ok(flags)
}

/// Appends the prelude of the stream of a mesh whose surface is traced, and answers the surface as it is decoded.
/// The connectivity is read back.
pub fn write_prelude(
    alloc: Global,
    out: &mut Vec<u8>,
    mesh: &CornerMesh,
    traced: TracedSurface,
    valence: bool,
) -> Result<SeamedSurface, Memory>
    requires { IsTraced mesh.now traced }
    ensures surface { IfOk result (IsSeamedSurface mesh.now) }
    ensures bytes { OnOk result (out.new.items ≡ out.old.items ++ prelude_bytes valence mesh.now) }
    ensures again { OnOk result (ConnectivityReadAgain valence mesh.now) }
{
    let flags = put_prelude_of(alloc, out, mesh, &traced, valence)?;
    let TracedSurface { trace, sides } = traced;
    let rows = rows_of(trace);
    Ok(SeamedSurface { rows, sides, flags })
}
