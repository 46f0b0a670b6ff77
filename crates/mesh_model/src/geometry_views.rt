//! Geometries whose integers and faces are lent.

ghost use Rattle.std.specs.Prelude.{◌≡◌, ◌<◌, ◌≤◌, [], IfOk, length, slice_index_or};
ghost use Rattle.std.specs.Option.{option_map};
ghost use Rattle.mesh_model.specs.Contents.{is_mesh, heads_in, points_in, faces_in};
ghost use Rattle.attr_heads.specs.FirstFault.{Tests, answer_of};
ghost use Rattle.attr_heads.specs.Head.{width_of};
ghost use Rattle.mesh_model.specs.Held.{faces_held, geometry_of, held, held_fault};
ghost use Rattle.mesh_model.specs.IsGeometry.{IsGeometry};
ghost use Rattle.mesh_model.specs.Parts.{AreRows, ArePoints};
ghost use Rattle.mesh_model.specs.Stored.{AreStored};

use crate::clouds::Cloud;
use crate::geometries::Geometry;
use crate::geometry_rules::{RowShape, test_cloud, test_mesh};
use crate::meshes::CornerMesh;
use crate::row_rules::stored_row;
use attr_heads::Head;
use drc_base::{Fault, Memory, Refusal};
use std::alloc::Global;
use std::marker::Model;

/// A triangle mesh or a point cloud whose heads, integers and faces are lent: nothing of it is copied.
/// Contracts see it as the geometry.
#[derive(Debug, Drop)]
pub struct GeometryView<'g> {
    heads: &'g [Head],
    cells: &'g [i32],
    faces: Option<&'g [[u32; 3]]>,
    width: u32,
    count: u32,
}

impl<'g> Model for GeometryView<'g> {
    ghost use Rattle.std.specs.Option.{option_map};
    ghost use Rattle.mesh_model.specs.declared.geometries.Geometry.{Geometry};
    ghost use Rattle.mesh_model.specs.Held.{held};
    ghost use Rattle.mesh_model.specs.IsGeometry.{IsGeometry};
    ghost use Rattle.mesh_model.specs.Stored.{AreStored};

    ghost Value = { Geometry };

    ghost view = { λ v. held v.heads.now v.width v.cells.now (option_map (λ f. f.now) v.faces) };

    ghost invariant = { λ v.
        AreStored v.heads.now v.cells.now v.width v.count
        × IsGeometry (held v.heads.now v.width v.cells.now (option_map (λ f. f.now) v.faces)) };
}

/// How the integers of a mesh are rows, or of a cloud, where there are no faces; or its first fault.
fn test_held(heads: &[Head], cells: &[i32], faces: Option<&[[u32; 3]]>) -> Result<RowShape, Fault>
    requires { AreRows heads.now cells.now }
    ensures tested { Tests (held_fault heads.now cells.now (option_map (λ f. f.now) faces.entry)) result }
    ensures stored { IfOk result (λ r. AreStored heads.now cells.now r.width r.count) }
    ensures sound { IfOk result (λ r. IsGeometry (held heads.now r.width cells.now (option_map (λ f. f.now) faces.entry))) }
{
    match faces {
        None => test_cloud(heads, cells, false),
        Some(faces) => test_mesh(heads, cells, faces, false),
    }
}

impl<'g> GeometryView<'g> {
    /// The mesh of these heads, points (row after row) and faces, or the cloud of them, where there are no
    /// faces. It takes no memory. Refusals: those of `CornerMesh::new`, or of `Cloud::new`.
    pub fn new(
        heads: &'g [Head],
        cells: &'g [i32],
        faces: Option<&'g [[u32; 3]]>,
    ) -> Result<GeometryView<'g>, Refusal>
        requires { AreRows heads.now cells.now }
        ensures { result ≡ answer_of (geometry_of heads.now cells.now (option_map (λ f. f.now) faces.entry)) }
    {
        let RowShape { width, count } = test_held(heads, cells, faces)?;
        Ok(GeometryView {
            heads,
            cells,
            faces,
            width,
            count,
        })
    }

    /// The geometry of these heads, rows and faces, which are known to be one.
    pub(crate) fn from_rows(
        heads: &'g [Head],
        cells: &'g [i32],
        faces: Option<&'g [[u32; 3]]>,
        width: u32,
        count: u32,
    ) -> GeometryView<'g>
        requires stored { AreStored heads.now cells.now width count }
        requires sound { IsGeometry (held heads.now width cells.now (option_map (λ f. f.now) faces)) }
        ensures { result ≡ held heads.now width cells.now (option_map (λ f. f.now) faces.entry) }
    {
        GeometryView {
            heads,
            cells,
            faces,
            width,
            count,
        }
    }

    /// Whether it is a mesh.
    pub fn is_mesh(&self) -> bool
        ensures { result ≡ is_mesh self.now }
    {
        self.faces.is_some()
    }

    /// The heads of its attributes.
    pub fn heads(&self) -> &[Head]
        ensures heads { result.now ≡ heads_in self.now }
        ensures sound { ArePoints (heads_in self.now) (points_in self.now) }
    {
        self.heads
    }

    /// How many integers a point has: the sum of the components, 1 to 128.
    pub fn width(&self) -> u32
        ensures value { result ≡ width_of (heads_in self.now) }
        ensures bounds { (0 < result) × (result ≤ 128) }
    {
        self.width
    }

    /// How many points it has.
    pub fn point_count(&self) -> u32
        ensures count { result ≡ length (points_in self.now) }
        ensures sound { ArePoints (heads_in self.now) (points_in self.now) }
        ensures geometry { IsGeometry self.now }
    {
        self.count
    }

    /// The integers of point `i`.
    pub fn point(&self, i: u32) -> &[i32]
        requires { i < length (points_in self.now) }
        ensures row { result.now ≡ slice_index_or (points_in self.now) i [] }
        ensures len { length result.now ≡ width_of (heads_in self.now) }
    {
        stored_row(self.cells, self.width, self.count, i)
    }

    /// The faces of a mesh: the numbers of the three points of each, below the number of points.
    pub fn faces(&self) -> Option<&[[u32; 3]]>
        ensures { option_map (λ f. f.now) result ≡ faces_held self.now }
    {
        self.faces
    }

    /// How many faces it has; a cloud has none.
    pub fn face_count(&self) -> u32
        ensures { result ≡ length (faces_in self.now) }
    {
        match self.faces {
            None => 0,
            Some(faces) => faces.len() as u32,
        }
    }

    /// An equal geometry of its own.
    pub fn copied(&self, alloc: Global) -> Result<Geometry, Memory>
        ensures { IfOk result (λ g. g ≡ self.now) }
    {
        match self.faces {
            None => {
                let cloud = Cloud::copied_from(
                    alloc, self.heads, self.cells, self.width, self.count,
                )?;
                Ok(Geometry::Cloud(cloud))
            }
            Some(faces) => {
                let mesh = CornerMesh::copied_from(
                    alloc, self.heads, self.cells, faces, self.width, self.count,
                )?;
                Ok(Geometry::Mesh(mesh))
            }
        }
    }
}
