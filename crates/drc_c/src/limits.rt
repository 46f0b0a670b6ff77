//! Limits of the caller for what is decoded.

ghost use Rattle.std.specs.Prelude.{◌≡◌};
ghost use Rattle.attr_heads.specs.FirstFault.{Tests};
ghost use Rattle.drc_c.specs.Limits.{is_within, limits_fault, declared_fault, geometry_fault};

use crate::shapes::{faces_in, integers_of, points_in};
use drc_base::{Fault, Kind};
use mesh_model::Geometry;
use stream_counts::DeclaredCounts;

/// The most of each that a caller takes of a geometry; 0 where only the library's own limit holds.
#[repr(C)]
#[derive(Clone, Copy, Debug)]
pub struct DrcLimits {
    /// Faces.
    pub faces: u32,
    /// Points.
    pub points: u32,
    /// Integers of all points.
    pub values: u32,
    /// 0, for what a later version may add.
    pub spare: u32,
}

// As the header has it.
const _: () = prove!(size_of::<DrcLimits>() == 16);

/// Whether a number is within a limit, of which 0 is none.
fn is_within(limit: u32, count: u64) -> bool
    ensures { result ≡ is_within limit count }
{
    limit == 0 || count <= limit as u64
}

/// The fault of the first number that is beyond its limit: of faces, of points, of values.
fn test_counts(limits: &DrcLimits, faces: u64, points: u64, values: u64) -> Result<(), Fault>
    ensures { Tests (limits_fault limits.now faces points values) result }
{
    if !is_within(limits.faces, faces) {
        return Err(Fault::new(Kind::FaceLimit, faces));
    }
    if !is_within(limits.points, points) {
        return Err(Fault::new(Kind::PointLimit, points));
    }
    if !is_within(limits.values, values) {
        return Err(Fault::new(Kind::ValueLimit, values));
    }
    Ok(())
}

/// The fault of the first number that is declared beyond its limit.
pub fn test_declared(limits: &DrcLimits, counts: DeclaredCounts) -> Result<(), Fault>
    ensures { Tests (declared_fault limits.now counts) result }
{
    test_counts(limits, counts.faces as u64, counts.points as u64, 0)
}

/// The fault of the first number of a geometry that is beyond its limit.
pub fn test_geometry(limits: &DrcLimits, g: &Geometry) -> Result<(), Fault>
    ensures { Tests (geometry_fault limits.now g.now) result }
{
    let faces = faces_in(g).len() as u64;
    let points = points_in(g) as u64;
    let values = integers_of(g).len() as u64;
    test_counts(limits, faces, points, values)
}
