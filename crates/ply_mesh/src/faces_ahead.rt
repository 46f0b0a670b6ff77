//! Lines of faces that are read from the rest of a text, without a search for their end.

ghost use Rattle.std.specs.Prelude.{◌≡◌, ◌<◌, ◌≤◌, length, pos, true, slice_index, IfSome};
ghost use Rattle.attr_heads.specs.Bounds.{in_bounds, type_bounds};
ghost use Rattle.ply_text.specs.InPlace.{IsNumberAt};
ghost use Rattle.ply_mesh.specs.Ahead.{IsFaceAhead};

use crate::numbers::is_within;
use attr_heads::Bounds;
use ply_text::natural_ahead;

/// The number at a place, if it lies within bounds and the byte `end` stands behind it, and the place of that
/// byte.
#[inline(always)]
fn index_ahead(text: &[u8], place: usize, bounds: Bounds, end: u8) -> Option<(u32, usize)>
    requires { place ≤ length text.now }
    ensures number { IfSome result (λ r. IsNumberAt text.now place r.1 (pos r.0)) }
    ensures more { IfSome result (λ r. r.1 < length text.now) }
    ensures bounds { IfSome result (λ r. in_bounds bounds (pos r.0) ≡ true) }
    ensures end { IfSome result (λ r. slice_index text.now r.1 ≡ end) }
{
    let found = natural_ahead(text, place)?;
    if !is_within(bounds, found.0 as i64) || text[found.1] != end {
        return None;
    }
    Some(found)
}

/// The face of the first line, and the place of its LF. `counts` and `indices` are the bounds of the types of
/// `list`. None says nothing about the line.
#[inline(always)]
#[tactic(auto, using(crate::proofs::AheadSteps::face_is_ahead))]
pub(crate) fn face_ahead(
    list: (u8, u8),
    counts: Bounds,
    indices: Bounds,
    points: u32,
    text: &[u8],
) -> Option<([u32; 3], usize)>
    requires counts { counts ≡ type_bounds list.0 }
    requires indices { indices ≡ type_bounds list.1 }
    ensures { IfSome result (λ r. IsFaceAhead list points text.now r.1 r.0) }
{
    let n = index_ahead(text, 0, counts, b' ')?;
    if n.0 != 3 {
        return None;
    }
    let a = index_ahead(text, n.1 + 1, indices, b' ')?;
    let b = index_ahead(text, a.1 + 1, indices, b' ')?;
    let c = index_ahead(text, b.1 + 1, indices, b'\n')?;
    if a.0 >= points || b.0 >= points || c.0 >= points {
        return None;
    }
    Some(([a.0, b.0, c.0], c.1))
}
