//! A mesh or a cloud.

ghost use Rattle.std.specs.Prelude.{◌≡◌};

use crate::clouds::Cloud;
use crate::geometry_views::GeometryView;
use crate::meshes::CornerMesh;

/// A triangle mesh or a point cloud.
#[derive(Debug, Drop)]
pub enum Geometry {
    /// A triangle mesh.
    Mesh(CornerMesh),
    /// A point cloud.
    Cloud(Cloud),
}

impl Geometry {
    /// The geometry, lent. It takes no memory.
    pub fn view(&self) -> GeometryView<'_>
        ensures { result ≡ self.now }
    {
        match self {
            Geometry::Mesh(mesh) => mesh.view(),
            Geometry::Cloud(cloud) => cloud.view(),
        }
    }
}
