//! A mesh from the values of its attributes, in groups that share their vertices.

ghost use Rattle.std.specs.Prelude.{◌≡◌, ◌≢◌, ◌+◌, ◌*◌, ◌<◌, ℕ, All, AllPairs, zip, IfOk};
ghost use Rattle.drc_base.specs.Refusals.{Answers};
ghost use Rattle.mesh_model.specs.Assembled.{AreTables, assembled, corner_row};
ghost use Rattle.mesh_model.specs.Groups.{group_tables, HasVertices};
ghost use Rattle.mesh_model.specs.Parts.{IsMesh, corner, rows_of};
ghost use Rattle.mesh_model.specs.Stored.{AreStored};

use crate::groups::AttrGroup;
use crate::meshes::CornerMesh;
use crate::numbering::number_corners;
use crate::row_rules::test_counts;
use attr_heads::{Head, row_width};
use drc_base::{Memory, Refusal};
use std::alloc::Global;

/// What a mesh stores beside its heads.
#[derive(Drop)]
struct Stored {
    cells: Vec<i32>,
    faces: Vec<[u32; 3]>,
    width: u32,
    count: u32,
}

/// The stored rows and faces of the assembled mesh.
fn assemble_stored(
    alloc: Global,
    heads: &[Head],
    groups: &[AttrGroup<'_>],
    faces: u32,
) -> Result<Stored, Refusal>
    requires tables { AreTables heads.now (group_tables groups.now) faces }
    requires vertices { All (HasVertices (3 * faces)) groups.now }
    ensures answer { Answers (λ s. record { heads = heads.now; points = rows_of s.width s.cells.items; faces = s.faces.items })
        (assembled heads.now (group_tables groups.now) faces) result }
    ensures stored { IfOk result (λ s. AreStored heads.now s.cells.items s.width s.count) }
    ensures sound { IfOk result (λ s. IsMesh (record { heads = heads.now; points = rows_of s.width s.cells.items; faces = s.faces.items })) }
{
    let width = row_width(heads);
    let numbering = number_corners(alloc, heads, groups, faces, width)?;
    test_counts(numbering.count as u64, width)?;
    Ok(Stored {
        cells: numbering.cells,
        faces: numbering.faces,
        width,
        count: numbering.count,
    })
}

/// The mesh of `faces` faces whose attributes are those of the groups, in order, each with its head: its points are the
/// distinct rows of corners in the order in which they come first, and corner k of face f has the point of its row.
/// Refusals, in this order: PointLimit at the number of points; ValueLimit at points times width.
pub fn assemble(
    alloc: Global,
    heads: Vec<Head>,
    groups: &[AttrGroup<'_>],
    faces: u32,
) -> Result<CornerMesh, Refusal>
    requires tables { AreTables heads.items (group_tables groups.now) faces }
    requires vertices { All (HasVertices (3 * faces)) groups.now }
    ensures answer { Answers (λ m. m) (assembled heads.items (group_tables groups.now) faces) result }
    // The points are pairwise different, and each corner has its row.
    ensures distinct { IfOk result (λ m. AllPairs (λ a b. a ≢ b) m.points) }
    ensures corners { IfOk result (λ m. (f k : ℕ) → f < faces → k < 3 →
        corner m f k ≡ corner_row (zip heads.items (group_tables groups.now)) (3 * f + k)) }
{
    let stored = assemble_stored(alloc, heads.as_slice(), groups, faces)?;
    Ok(CornerMesh::from_rows(
        heads,
        stored.cells,
        stored.faces,
        stored.width,
        stored.count,
    ))
}
