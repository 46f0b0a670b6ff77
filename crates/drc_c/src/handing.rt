//! Arrays that are handed to C, which frees them by `free`.

ghost use Rattle.std.specs.Prelude.{◌≡◌};
ghost use Rattle.mesh_model.specs.Contents.{faces_in};
ghost use Rattle.drc_c.specs.Shapes.{integers_of};

use crate::streams::DrcRow;
use mesh_model::Geometry;
use std::alloc::Global;
use std::ptr::null_mut;

/// The arrays of a geometry.
#[derive(Drop)]
pub struct Arrays {
    /// The numbers of the three points of each face.
    pub corners: Vec<[u32; 3]>,
    /// The integers of all points, point after point.
    pub values: Vec<i32>,
}

/// The arrays of a geometry, as it holds them. It takes no memory.
pub fn arrays_of(alloc: Global, g: Geometry) -> Arrays
    ensures corners { result.corners.items ≡ faces_in g }
    ensures values { result.values.items ≡ integers_of g }
{
    match g {
        Geometry::Mesh(mesh) => {
            let (_, values, corners) = mesh.into_parts();
            Arrays { corners, values }
        }
        Geometry::Cloud(cloud) => {
            let (_, values) = cloud.into_parts();
            Arrays {
                corners: Vec::new(alloc),
                values,
            }
        }
    }
}

/// Where faces lie, which nothing frees here; null without any.
pub fn handed_corners(corners: Vec<[u32; 3]>) -> *mut [u32; 3] {
    if corners.is_empty() {
        return null_mut();
    }
    let mut corners = corners;
    let at = corners.as_mut_ptr();
    let _kept = corners.leak();
    at
}

/// Where integers lie, which nothing frees here; null without any.
pub fn handed_values(values: Vec<i32>) -> *mut i32 {
    if values.is_empty() {
        return null_mut();
    }
    let mut values = values;
    let at = values.as_mut_ptr();
    let _kept = values.leak();
    at
}

/// Where bytes lie, which nothing frees here; null without any.
pub fn handed_bytes(bytes: Vec<u8>) -> *mut u8 {
    if bytes.is_empty() {
        return null_mut();
    }
    let mut bytes = bytes;
    let at = bytes.as_mut_ptr();
    let _kept = bytes.leak();
    at
}

/// Where the rows of a map lie, which nothing frees here; null without any.
pub fn handed_rows(rows: Vec<DrcRow>) -> *mut DrcRow {
    if rows.is_empty() {
        return null_mut();
    }
    let mut rows = rows;
    let at = rows.as_mut_ptr();
    let _kept = rows.leak();
    at
}
