//! What a geometry is, without its arrays.

ghost use Rattle.std.specs.Prelude.{◌≡◌, length};
ghost use Rattle.mesh_model.specs.Contents.{faces_in, points_in};
ghost use Rattle.drc_c.specs.Shapes.{shape_of, integers_of};

use crate::heads::{DrcHead, heads_told};
use mesh_model::{Cloud, CornerMesh, Geometry};

/// How many heads a shape has room for.
const HEAD_ROOM: usize = 16;

/// What a geometry is: whether it is a mesh, how much it has of what, and the heads of its attributes.
#[repr(C)]
#[derive(Clone, Copy, Debug)]
pub struct DrcShape {
    /// 1 a mesh, 0 a cloud.
    pub mesh: u32,
    /// How many faces it has; a cloud has none.
    pub faces: u32,
    /// How many points it has.
    pub points: u32,
    /// How many integers a point has: the sum of the components of its attributes.
    pub width: u32,
    /// How many attributes it has, 1 to 16.
    pub attributes: u32,
    /// What each attribute is; blank ones behind the last.
    pub heads: [DrcHead; HEAD_ROOM],
}

// As the header has it.
const _: () = prove!(size_of::<DrcShape>() == 788);

/// The shape of a mesh.
#[tactic(auto, using(crate::proofs::FewHeads::heads_few))]
fn mesh_shape(mesh: &CornerMesh) -> DrcShape
    ensures { result ≡ shape_of (Geometry.Mesh mesh.now) }
{
    let heads = mesh.heads();
    DrcShape {
        mesh: 1,
        faces: mesh.face_count(),
        points: mesh.point_count(),
        width: mesh.width(),
        attributes: heads.len() as u32,
        heads: heads_told(heads),
    }
}

/// The shape of a cloud.
#[tactic(auto, using(crate::proofs::FewHeads::heads_few))]
fn cloud_shape(cloud: &Cloud) -> DrcShape
    ensures { result ≡ shape_of (Geometry.Cloud cloud.now) }
{
    let heads = cloud.heads();
    DrcShape {
        mesh: 0,
        faces: 0,
        points: cloud.point_count(),
        width: cloud.width(),
        attributes: heads.len() as u32,
        heads: heads_told(heads),
    }
}

/// The shape of a geometry.
pub fn shape_of(g: &Geometry) -> DrcShape
    ensures { result ≡ shape_of g.now }
{
    match g {
        Geometry::Mesh(mesh) => mesh_shape(mesh),
        Geometry::Cloud(cloud) => cloud_shape(cloud),
    }
}

/// How many points a geometry has.
pub fn points_in(g: &Geometry) -> u32
    ensures { result ≡ length (points_in g.now) }
{
    match g {
        Geometry::Mesh(mesh) => mesh.point_count(),
        Geometry::Cloud(cloud) => cloud.point_count(),
    }
}

/// The faces of a geometry: the numbers of the three points of each.
pub fn faces_in(g: &Geometry) -> &[[u32; 3]]
    ensures { result.now ≡ faces_in g.now }
{
    match g {
        Geometry::Mesh(mesh) => mesh.faces(),
        Geometry::Cloud(_) => &[],
    }
}

/// The integers of a geometry, point after point.
pub fn integers_of(g: &Geometry) -> &[i32]
    ensures { result.now ≡ integers_of g.now }
{
    match g {
        Geometry::Mesh(mesh) => mesh.cells(),
        Geometry::Cloud(cloud) => cloud.cells(),
    }
}
