//! The test for faces with two equal positions.

ghost use Rattle.std.specs.Prelude.{◌≡◌, ◌<◌, length, take};
ghost use Rattle.attr_heads.specs.FirstFault.{Tests};
ghost use Rattle.mesh_model.specs.Assembled.{same_row as one_row};
ghost use Rattle.corner_table.specs.Sides.{side, first, second, third};
ghost use Rattle.corner_table.specs.Sides.{place_of};
ghost use Rattle.pairing.specs.Pairing.{corner_position};
ghost use Rattle.pairing.specs.Degenerate.{is_degenerate_face, degenerate_fault};

use crate::positions::first_width;
use drc_base::{Fault, Kind};
use mesh_model::{CornerMesh, same_row};

/// The position of corner `k` of face `f`.
fn position_at(m: &CornerMesh, f: u32, k: u8) -> &[i32]
    requires face { f < length m.now.faces }
    requires place { k < 3 }
    ensures { result.now ≡ corner_position m.now (side f (place_of k)) }
{
    let width = first_width(m.heads());
    &m.corner(f, k)[..width as usize]
}

/// Whether two positions are one.
fn is_one(p: &[i32], q: &[i32]) -> bool
    ensures { result ≡ one_row p.now q.now }
{
    same_row(p, q)
}

/// Whether two corners of face `f` have one position.
fn is_degenerate(m: &CornerMesh, f: u32) -> bool
    requires { f < length m.now.faces }
    ensures { result ≡ is_degenerate_face m.now f }
{
    let (p, q, r) = (
        position_at(m, f, 0),
        position_at(m, f, 1),
        position_at(m, f, 2),
    );
    is_one(p, q) || is_one(q, r) || is_one(r, p)
}

/// Degenerate at the first face with two equal positions.
pub(crate) fn test_faces(m: &CornerMesh) -> Result<(), Fault>
    ensures { Tests (degenerate_fault m.now) result }
{
    for f in 0..m.face_count() {
        if is_degenerate(m, f) {
            return Err(Fault::new(Kind::Degenerate, u64::from(f)));
        }
    }
    Ok(())
}
