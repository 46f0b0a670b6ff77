//! The trace of a mesh's surface, and the surface as it is decoded.

ghost use Rattle.std.specs.Prelude.{◌≡◌, length, Some, Err, IfOk};
ghost use Rattle.drc_base.specs.declared.faults.Fault.{Fault as AnyFault};
ghost use Rattle.drc_base.specs.declared.faults.Refusal.TheVariants as refusal;
ghost use Rattle.drc_base.specs.Refusals.{Answers};
ghost use Rattle.attr_heads.specs.FirstFault.{value_unless};
ghost use Rattle.corner_table.specs.Fans.{IsProper};
ghost use Rattle.corner_table.specs.Table.{gluing_of};
ghost use Rattle.corner_table.specs.Carried.{IsRenumbering};
ghost use Rattle.pairing.specs.Pairing.{pairing};
ghost use Rattle.pairing.specs.Degenerate.{degenerate_fault};
ghost use Rattle.eb_trace.specs.Writable.{IsWritable};
ghost use Rattle.drc_container.specs.choice.Refused.{vertices_fault, tracing_fault};
ghost use Rattle.drc_container.specs.writing.WrittenOnSurface.{traced, decoded};

use crate::choice::refusals::unless;
use crate::surface::carried_surfaces::carried_surface;
use corner_table::SideTable;
use drc_base::{Kind, MAX_POINTS, Refusal};
use eb_trace::{Traced, trace};
use mesh_model::CornerMesh;
use pairing::pair;
use std::alloc::Global;

/// What is left of a mesh's surface once it is traced: the trace, and the surface as it is decoded, its faces in the
/// order of decoding.
#[derive(Debug, Drop)]
pub struct TracedSurface {
    /// The trace.
    pub trace: Traced,
    /// The surface as it is decoded.
    pub sides: SideTable,
}

/// The trace of a mesh over the table of its sides. Refused with PointLimit at the number of vertices.
fn trace_over(alloc: Global, mesh: &CornerMesh, sides: &SideTable) -> Result<Traced, Refusal>
    requires faces { sides.now.faces ≡ length mesh.now.faces }
    requires pairs { gluing_of sides.now ≡ pairing mesh.now }
    requires proper { IsProper sides.now.faces (gluing_of sides.now) }
    ensures trace { Answers (λ t. t) (value_unless (vertices_fault mesh.now) (traced mesh.now)) result }
    ensures once { IfOk result (λ t. IsRenumbering sides.now.faces t.order) }
    ensures writable { IfOk result (λ t. IsWritable (length mesh.now.faces) t.vertices t.symbols t.events t.starts) }
{
    let trace = trace(alloc, sides)?;
    let vertices = trace.vertices;
    unless(
        vertices <= MAX_POINTS,
        Kind::PointLimit,
        u64::from(vertices),
    )?;
    Ok(trace)
}

/// The trace of a mesh over the table of its sides, and its surface as it is decoded. The table is freed. Refused
/// with PointLimit at the number of vertices.
fn traced_on(alloc: Global, mesh: &CornerMesh, sides: SideTable) -> Result<TracedSurface, Refusal>
    requires faces { sides.faces ≡ length mesh.now.faces }
    requires pairs { gluing_of sides ≡ pairing mesh.now }
    requires proper { IsProper sides.faces (gluing_of sides) }
    ensures trace { Answers (λ r. r.trace) (value_unless (vertices_fault mesh.now) (traced mesh.now)) result }
    ensures pairs { IfOk result (λ r. gluing_of r.sides ≡ (decoded mesh.now).pairs) }
    ensures faces { IfOk result (λ r. r.sides.faces ≡ length mesh.now.faces) }
    ensures writable { IfOk result (λ r. IsWritable (length mesh.now.faces) r.trace.vertices r.trace.symbols r.trace.events r.trace.starts) }
{
    let trace = trace_over(alloc, mesh, &sides)?;
    let sides = carried_surface(alloc, sides, trace.order.as_slice())?;
    Ok(TracedSurface { trace, sides })
}

/// The trace of a mesh, and its surface as it is decoded. Refusals: Degenerate at the first face with two equal
/// positions, also when out of memory; PointLimit at the number of vertices.
pub fn traced_surface(alloc: Global, mesh: &CornerMesh) -> Result<TracedSurface, Refusal>
    ensures trace { Answers (λ r. r.trace) (value_unless (tracing_fault mesh.now) (traced mesh.now)) result }
    ensures pairs { IfOk result (λ r. gluing_of r.sides ≡ (decoded mesh.now).pairs) }
    ensures faces { IfOk result (λ r. r.sides.faces ≡ length mesh.now.faces) }
    ensures writable { IfOk result (λ r. IsWritable (length mesh.now.faces) r.trace.vertices r.trace.symbols r.trace.events r.trace.starts) }
    ensures degenerate { (f : AnyFault) → degenerate_fault mesh.now ≡ Some f → result ≡ Err (refusal.Fault f) }
{
    let sides = pair(alloc, mesh)?;
    traced_on(alloc, mesh, sides)
}
