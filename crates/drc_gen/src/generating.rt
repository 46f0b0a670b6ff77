//! The mesh of a kind, a size and a seed.

ghost use Rattle.std.specs.Prelude.{◌≡◌, ◌≤◌, None, IfOk};
ghost use Rattle.attr_heads.specs.Head.{width_of};
ghost use Rattle.mesh_model.specs.Parts.{AreRows, mesh_fault, range_fault, rows_of};
ghost use Rattle.drc_gen.specs.Generated.{generated};

use crate::faces::make_faces;
use crate::heads::make_heads;
use crate::kinds::GenKind;
use crate::points::make_points;
use crate::sizes::{LEAST_SIZE, MOST_SIZE};
use attr_heads::Head;
use drc_base::Memory;
use mesh_model::CornerMesh;
use std::alloc::Global;

/// The mesh of heads, points and faces that pass each test. It takes no memory.
fn sound_mesh(heads: Vec<Head>, points: Vec<i32>, faces: Vec<[u32; 3]>) -> CornerMesh
    requires rows { AreRows heads.items points.items }
    requires typed { range_fault heads.items points.items ≡ None }
    requires sound { mesh_fault heads.items points.items faces.items ≡ None }
    ensures { result ≡ record { heads = heads.items; points = rows_of (width_of heads.items) points.items; faces = faces.items } }
{
    CornerMesh::of_typed(heads, points, faces).unwrap()
}

/// The mesh of a kind, a size (`LEAST_SIZE` to `MOST_SIZE`) and a seed: always the same. It fails only
/// when out of memory. Its points and faces are those of the kind, in the order of its cells. Its
/// first attribute has positions, three int32; `Seams` has a second one, a label of one uint8 (this
/// project's choice).
pub fn generate(alloc: Global, kind: GenKind, size: u32, seed: u64) -> Result<CornerMesh, Memory>
    requires least { LEAST_SIZE ≤ size }
    requires most { size ≤ MOST_SIZE }
    ensures { IfOk result (λ mesh. mesh ≡ generated kind size seed) }
{
    let heads = make_heads(alloc, kind)?;
    let points = make_points(alloc, kind, size, seed)?;
    let faces = make_faces(alloc, kind, size)?;
    Ok(sound_mesh(heads, points, faces))
}
