//! A mesh with its faces in another order, each turned: not copied, but seen through the rows of the order.

ghost use Rattle.std.specs.Prelude.{◌≡◌, ◌+◌, ◌%◌, ◌<◌, ◌≤◌, length, get_or, All, IfOk};
ghost use Rattle.mesh_model.specs.Parts.{cells_of, corner, IsMesh};
ghost use Rattle.attr_heads.specs.Head.{width_of};
ghost use Rattle.mesh_model.specs.Renumbering.{renumbered, turned_face};
ghost use Rattle.corner_table.specs.Table.{side_of};
ghost use Rattle.corner_table.specs.Carried.{carry, IsRenumbering};

use crate::writing::coded_values::put_piece;
use attr_heads::{Head, copies_of};
use drc_base::{Memory, Side};
use mesh_model::CornerMesh;
use std::alloc::Global;
use std::marker::Model;

/// A mesh with its faces in the order of rows, each turned as its row says. Contracts see it as that mesh.
#[derive(Drop)]
pub struct TurnedMesh<'m> {
    mesh: &'m CornerMesh,
    rows: &'m [(u32, u8)],
}

impl<'m> Model for TurnedMesh<'m> {
    ghost use Rattle.std.specs.Prelude.{length};
    ghost use Rattle.mesh_model.specs.Parts.{MeshParts, IsMesh};
    ghost use Rattle.mesh_model.specs.Renumbering.{renumbered};
    ghost use Rattle.corner_table.specs.Carried.{IsRenumbering};

    ghost Value = { MeshParts };

    ghost view = { λ t. renumbered t.mesh.now t.rows.now };

    ghost invariant = { λ t. IsMesh t.mesh.now × IsRenumbering (length t.mesh.now.faces) t.rows.now };
}

/// The corner that a corner of a face in the order of the rows is.
pub fn carried(rows: &[(u32, u8)], corner: Side) -> Side
    requires rows { All (λ row. row.1 < 3) rows.now }
    requires corner { corner.face < length rows.now }
    ensures face { result.face ≡ (get_or rows.now corner.face (0, 0)).0 }
    ensures place { result.k ≡ (corner.k + (get_or rows.now corner.face (0, 0)).1) % 3 }
    ensures corner { side_of result ≡ carry rows.now (side_of corner) }
{
    let (face, turn) = rows[corner.face as usize];
    Side {
        face,
        k: (corner.k + turn) % 3,
    }
}

/// A face that is turned: its corner k is corner k + turn, modulo 3, of the face.
fn turned_face(face: [u32; 3], turn: u8) -> [u32; 3]
    requires { turn < 3 }
    ensures { result ≡ turned_face face turn }
{
    let first = turn as usize;
    [
        face[first % 3],
        face[(1 + first) % 3],
        face[(2 + first) % 3],
    ]
}

/// The faces of a mesh in the order of the rows, each turned as its row says.
fn turned_faces(
    alloc: Global,
    mesh: &CornerMesh,
    rows: &[(u32, u8)],
) -> Result<Vec<[u32; 3]>, Memory>
    requires { IsRenumbering (length mesh.now.faces) rows.now }
    ensures { IfOk result (λ v. v.items ≡ (renumbered mesh.now rows.now).faces) }
{
    let mut faces = Vec::with_capacity(alloc, rows.len())?;
    for (face, turn) in rows {
        faces.push(turned_face(mesh.face(*face), *turn))?;
    }
    Ok(faces)
}

/// The integers of the points of a mesh, point after point.
fn cells_of(alloc: Global, mesh: &CornerMesh) -> Result<Vec<i32>, Memory>
    ensures { IfOk result (λ v. v.items ≡ cells_of mesh.now.points) }
{
    let count = mesh.point_count();
    let mut cells = Vec::with_capacity(alloc, count as usize * mesh.width() as usize)?;
    for i in 0..count {
        put_piece(&mut cells, mesh.point(i));
    }
    Ok(cells)
}

/// The mesh with its faces in the order of the rows, each turned as its row says: its face i is the face
/// that row i names, whose corner k + turn, modulo 3, is its corner k. Points and heads are copied.
pub fn renumbered_mesh(
    alloc: Global,
    mesh: &CornerMesh,
    rows: &[(u32, u8)],
) -> Result<CornerMesh, Memory>
    requires { IsRenumbering (length mesh.now.faces) rows.now }
    ensures { IfOk result (λ m. m ≡ renumbered mesh.now rows.now) }
{
    let heads = copies_of(alloc, mesh.heads())?;
    let cells = cells_of(alloc, mesh)?;
    let faces = turned_faces(alloc, mesh, rows)?;
    Ok(CornerMesh::of_typed(heads, cells, faces).unwrap())
}

impl<'m> TurnedMesh<'m> {
    /// A mesh with its faces in the order of these rows, each turned as its row says. It takes no memory.
    pub fn new(mesh: &'m CornerMesh, rows: &'m [(u32, u8)]) -> TurnedMesh<'m>
        requires { IsRenumbering (length mesh.now.faces) rows.now }
        ensures { result ≡ renumbered mesh.now rows.now }
    {
        // For the prover alone: the call states what holds of every mesh.
        let _faces = mesh.face_count();
        TurnedMesh { mesh, rows }
    }

    /// The heads of its attributes.
    pub fn heads(&self) -> &[Head]
        ensures value { result.now ≡ self.now.heads }
        ensures sound { IsMesh self.now }
    {
        self.mesh.heads()
    }

    /// How many integers a point has: the sum of the components, 1 to 128.
    pub fn width(&self) -> u32
        ensures value { result ≡ width_of self.now.heads }
        ensures bounds { (0 < result) × (result ≤ 128) }
    {
        self.mesh.width()
    }

    /// How many faces there are.
    pub fn face_count(&self) -> u32
        ensures value { result ≡ length self.now.faces }
        ensures sound { IsMesh self.now }
    {
        self.mesh.face_count()
    }

    /// The integers of a corner: those of its point.
    pub fn corner(&self, c: Side) -> &[i32]
        requires { c.face < length self.now.faces }
        ensures row { result.now ≡ corner self.now c.face c.k }
        ensures len { length result.now ≡ width_of self.now.heads }
    {
        let old = carried(self.rows, c);
        self.mesh.corner(old.face, old.k)
    }

    /// An equal mesh, which is not seen through rows.
    pub fn copied(&self, alloc: Global) -> Result<CornerMesh, Memory>
        ensures { IfOk result (λ m. m ≡ self.now) }
    {
        // For the prover alone, who shows the clauses of the value that the call gave.
        let mesh = renumbered_mesh(alloc, self.mesh, self.rows)?;
        Ok(mesh)
    }
}
