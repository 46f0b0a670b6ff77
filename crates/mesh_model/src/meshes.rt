//! Triangle meshes.

use crate::counted_rows::CountedRows;
use crate::geometry_rules::{RowShape, test_mesh};
use crate::geometry_views::GeometryView;
use crate::row_numbers::first_rows;
use crate::row_rules::stored_row;
use attr_heads::{Head, copies_of};
use drc_base::{Memory, Refusal};
use std::alloc::Global;
use std::marker::Model;

/// A triangle mesh: heads, points and faces of three point numbers, within the limits. Contracts
/// see its points as rows, one integer for each component of each head, in order.
#[derive(Debug, Drop)]
pub struct CornerMesh {
    heads: Vec<Head>,
    cells: Vec<i32>,
    faces: Vec<[u32; 3]>,
    width: u32,
    count: u32,
}

impl Model for CornerMesh {
    ghost use Rattle.mesh_model.specs.Parts.{MeshParts, IsMesh, rows_of};
    ghost use Rattle.mesh_model.specs.Stored.{AreStored};

    ghost Value = { MeshParts };

    ghost view = { λ m. record { heads = m.heads.items; points = rows_of m.width m.cells.items; faces = m.faces.items } };

    ghost invariant = { λ m.
        AreStored m.heads.items m.cells.items m.width m.count
        × IsMesh (record { heads = m.heads.items; points = rows_of m.width m.cells.items; faces = m.faces.items }) };
}

impl CornerMesh {
    ghost use Rattle.std.specs.Prelude.{◌≡◌, ◌<◌, ◌≤◌, [], All, IfOk, IsTrue, None, length, slice_index_or};
    ghost use Rattle.mesh_model.specs.declared.geometries.Geometry.TheVariants as geometry;
    ghost use Rattle.attr_heads.specs.FirstFault.{answer_of};
    ghost use Rattle.attr_heads.specs.Head.{width_of};
    ghost use Rattle.mesh_model.specs.Parts.{AreRows, IsMesh, cells_of, corner, mesh_of, range_fault, rows_of};
    ghost use Rattle.mesh_model.specs.RowNumbers.{AreFirstRows};
    ghost use Rattle.mesh_model.specs.Stored.{AreStored};

    /// The mesh of these heads, points (row after row) and faces. It takes no memory. Refusals, the
    /// first that applies: NoAttribute and AttrLimit at the number of heads; AttrType, DataType (also
    /// where `dtype` is 9 without exactly one of a quantisation and a square), Components (also where a
    /// square hasn't two) and QuantBits (of a quantisation 1 to 30, of a square 2 to 30) at the number of
    /// the first head that has one; PointLimit at the number of points, ValueLimit at points times width,
    /// FaceLimit at the number of faces; IndexRange at the first face with a number that is no number of a
    /// point; ValueRange at the first integer of `points` outside its data type or, of a square of `bits`
    /// bits, outside 0 to 2^bits - 2.
    pub fn new(
        heads: Vec<Head>,
        points: Vec<i32>,
        faces: Vec<[u32; 3]>,
    ) -> Result<CornerMesh, Refusal>
        requires { AreRows heads.items points.items }
        ensures { result ≡ answer_of (mesh_of heads.items points.items faces.items) }
    {
        CornerMesh::tested(heads, points, faces, false)
    }

    /// The mesh that `new` gives, or its refusal, where each integer is known to be in its data type or
    /// square: none of them is looked at. It takes no memory.
    pub fn of_typed(
        heads: Vec<Head>,
        points: Vec<i32>,
        faces: Vec<[u32; 3]>,
    ) -> Result<CornerMesh, Refusal>
        requires rows { AreRows heads.items points.items }
        requires typed { range_fault heads.items points.items ≡ None }
        ensures { result ≡ answer_of (mesh_of heads.items points.items faces.items) }
    {
        CornerMesh::tested(heads, points, faces, true)
    }

    /// The mesh or its first refusal; where its integers are known to be typed, they aren't tested.
    fn tested(
        heads: Vec<Head>,
        points: Vec<i32>,
        faces: Vec<[u32; 3]>,
        typed: bool,
    ) -> Result<CornerMesh, Refusal>
        requires rows { AreRows heads.items points.items }
        requires typed { IsTrue typed → range_fault heads.items points.items ≡ None }
        ensures { result ≡ answer_of (mesh_of heads.items points.items faces.items) }
    {
        let RowShape { width, count } = test_mesh(
            heads.as_slice(),
            points.as_slice(),
            faces.as_slice(),
            typed,
        )?;
        Ok(CornerMesh {
            heads,
            cells: points,
            faces,
            width,
            count,
        })
    }

    /// The mesh of these heads, rows and faces, which are known to be one.
    pub(crate) fn from_rows(
        heads: Vec<Head>,
        cells: Vec<i32>,
        faces: Vec<[u32; 3]>,
        width: u32,
        count: u32,
    ) -> CornerMesh
        requires stored { AreStored heads.items cells.items width count }
        requires sound { IsMesh (record { heads = heads.items; points = rows_of width cells.items; faces = faces.items }) }
        ensures { result ≡ record { heads = heads.items; points = rows_of width cells.items; faces = faces.items } }
    {
        CornerMesh {
            heads,
            cells,
            faces,
            width,
            count,
        }
    }

    /// The mesh of these heads, rows and faces, which are known to be one, and are copied.
    pub(crate) fn copied_from(
        alloc: Global,
        heads: &[Head],
        cells: &[i32],
        faces: &[[u32; 3]],
        width: u32,
        count: u32,
    ) -> Result<CornerMesh, Memory>
        requires stored { AreStored heads.now cells.now width count }
        requires sound { IsMesh (record { heads = heads.now; points = rows_of width cells.now; faces = faces.now }) }
        ensures { IfOk result (λ m. m ≡ record { heads = heads.now; points = rows_of width cells.now; faces = faces.now }) }
    {
        let heads = copies_of(alloc, heads)?;
        let cells = Vec::from_slice(alloc, cells)?;
        let faces = Vec::from_slice(alloc, faces)?;
        Ok(CornerMesh::from_rows(heads, cells, faces, width, count))
    }

    /// The mesh, lent. It takes no memory.
    pub fn view(&self) -> GeometryView<'_>
        ensures { result ≡ geometry.Mesh self.now }
    {
        GeometryView::from_rows(
            self.heads.as_slice(),
            self.cells.as_slice(),
            Some(self.faces.as_slice()),
            self.width,
            self.count,
        )
    }

    /// The heads of its attributes.
    pub fn heads(&self) -> &[Head]
        ensures value { result.now ≡ self.now.heads }
        ensures sound { IsMesh self.now }
    {
        self.heads.as_slice()
    }

    /// How many integers a point has: the sum of the components, 1 to 128.
    pub fn width(&self) -> u32
        ensures value { result ≡ width_of self.now.heads }
        ensures bounds { (0 < result) × (result ≤ 128) }
    {
        self.width
    }

    /// How many points there are.
    pub fn point_count(&self) -> u32
        ensures value { result ≡ length self.now.points }
        ensures sound { IsMesh self.now }
    {
        self.count
    }

    /// The integers of all points, row after row.
    #[tactic(auto, using(crate::proofs::Rows::cells_back))]
    pub fn cells(&self) -> &[i32]
        ensures value { result.now ≡ cells_of self.now.points }
        ensures sound { IsMesh self.now }
    {
        self.cells.as_slice()
    }

    /// Its heads, the integers of all points, row after row, and its faces, as they are held.
    #[tactic(auto, using(crate::proofs::Rows::cells_back))]
    pub fn into_parts(self) -> (Vec<Head>, Vec<i32>, Vec<[u32; 3]>)
        ensures heads { result.0.items ≡ self.heads }
        ensures cells { result.1.items ≡ cells_of self.points }
        ensures faces { result.2.items ≡ self.faces }
    {
        (self.heads, self.cells, self.faces)
    }

    /// The integers of point `i`.
    pub fn point(&self, i: u32) -> &[i32]
        requires { i < length self.now.points }
        ensures row { result.now ≡ slice_index_or self.now.points i [] }
        ensures len { length result.now ≡ width_of self.now.heads }
    {
        stored_row(self.cells.as_slice(), self.width, self.count, i)
    }

    /// For each point the number of the first one with the same first `columns` integers, found in a few passes over
    /// each column. Takes about five integers a point. The error is want of memory.
    pub fn first_points(&self, alloc: Global, columns: u32) -> Result<Vec<u32>, Memory>
        requires { columns ≤ width_of self.now.heads }
        ensures { IfOk result (λ numbers. AreFirstRows self.now.points columns (length self.now.points) numbers.items) }
    {
        let mut rows = CountedRows::new(self.cells.as_slice(), self.width, self.count);
        first_rows(alloc, &mut rows, columns)
    }

    /// How many faces there are.
    pub fn face_count(&self) -> u32
        ensures value { result ≡ length self.now.faces }
        ensures sound { IsMesh self.now }
    {
        self.faces.len() as u32
    }

    /// The faces: the numbers of the three points of each, below the number of points.
    pub fn faces(&self) -> &[[u32; 3]]
        ensures value { result.now ≡ self.now.faces }
        ensures sound { IsMesh self.now }
    {
        self.faces.as_slice()
    }

    /// The numbers of the three points of face `f`, each below the number of points.
    pub fn face(&self, f: u32) -> [u32; 3]
        requires { f < length self.now.faces }
        ensures face { result ≡ slice_index_or self.now.faces f [] }
        ensures in_range { All (λ p. p < length self.now.points) result }
    {
        self.faces[f as usize]
    }

    /// The integers of corner `k` of face `f`: those of its point.
    pub fn corner(&self, f: u32, k: u8) -> &[i32]
        requires face { f < length self.now.faces }
        requires place { k < 3 }
        ensures row { result.now ≡ corner self.now f k }
        ensures len { length result.now ≡ width_of self.now.heads }
    {
        self.point(self.faces[f as usize][k as usize])
    }
}
