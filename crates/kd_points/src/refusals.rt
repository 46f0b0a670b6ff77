//! Which geometries are written.

ghost use Rattle.std.specs.Prelude.{◌≡◌, ◌<◌, ◌≤◌, ◌*◌, ◌^◌, None, Some, IfOk, OnOk, is_some, position, length, MatchResult};
ghost use Rattle.mesh_model.specs.declared.geometries.Geometry.TheVariants.{Cloud as cloud};
ghost use Rattle.attr_heads.specs.Head.{width_of};
ghost use Rattle.mesh_model.specs.Parts.{IsCloud};
ghost use Rattle.attr_heads.specs.FirstFault.{Tests};
ghost use Rattle.kd_points.specs.Written.{square_fault, kd_fault};

use attr_heads::Head;
use drc_base::{Fault, Kind, MAX_KD_POINTS, MAX_KD_VALUES};
use mesh_model::{Cloud, Geometry};

/// The first attribute with a square.
fn first_square(heads: &[Head]) -> Option<usize>
    ensures { result ≡ position (λ h. is_some h.octa) heads.now }
{
    heads.iter().position(|h| h.octa.is_some())
}

/// The fault of a cloud with octahedral attributes.
fn test_squares(c: &Cloud) -> Result<(), Fault>
    ensures { Tests (square_fault (cloud c.now)) result }
{
    match first_square(c.heads()) {
        None => Ok(()),
        Some(at) => Err(Fault::new(Kind::Octahedral, at as u64)),
    }
}

/// The fault of a cloud.
#[tactic(auto, unfolding(crate::specs::Written::kd_fault))]
fn test_cloud(c: &Cloud) -> Result<(), Fault>
    ensures fault { MatchResult result (λ _. kd_fault (cloud c.now) ≡ None) (λ f. kd_fault (cloud c.now) ≡ Some f) }
    ensures some { OnOk result (0 < length c.now.points) }
    ensures few { OnOk result (length c.now.points ≤ MAX_KD_POINTS) }
    ensures values { OnOk result (length c.now.points * width_of c.now.heads ≤ MAX_KD_VALUES) }
    ensures sound { OnOk result (IsCloud c.now) }
{
    test_squares(c)?;
    let points = c.point_count();
    if points == 0 {
        return Err(Fault::new(Kind::Empty, 0));
    }
    if points > MAX_KD_POINTS {
        return Err(Fault::new(Kind::PointLimit, u64::from(points)));
    }
    let values = u64::from(points) * u64::from(c.width());
    if values > u64::from(MAX_KD_VALUES) {
        return Err(Fault::new(Kind::KdLimit, values));
    }
    Ok(())
}

/// The cloud that is written of a geometry, or why it isn't.
#[tactic(auto, unfolding(crate::specs::Written::kd_fault))]
pub fn cloud_to_write(g: &Geometry) -> Result<&Cloud, Fault>
    ensures fault { MatchResult result (λ c. (kd_fault g.now ≡ None) × (g.now ≡ cloud c.now)) (λ f. kd_fault g.now ≡ Some f) }
    ensures some { IfOk result (λ c. 0 < length c.now.points) }
    ensures few { IfOk result (λ c. length c.now.points ≤ MAX_KD_POINTS) }
    ensures values { IfOk result (λ c. length c.now.points * width_of c.now.heads ≤ MAX_KD_VALUES) }
    ensures sound { IfOk result (λ c. IsCloud c.now) }
{
    match g {
        Geometry::Mesh(_) => Err(Fault::new(Kind::KdMesh, 0)),
        Geometry::Cloud(c) => {
            test_cloud(c)?;
            Ok(c)
        }
    }
}
