//! Numbers within bounds.

ghost use Rattle.std.specs.Prelude.{◌≡◌, ◌<◌, ◌≤◌, length, IsTrue, IfSome, FitsSigned, true};
ghost use Rattle.std.specs.Int.{w32};
ghost use Rattle.std.specs.Prelude.{Some, drop};
ghost use Rattle.attr_heads.specs.Bounds.{in_bounds};
ghost use Rattle.ply_text.specs.Numbers.{first_integer};
ghost use Rattle.ply_text.specs.Tokens.{tokens_of};
ghost use Rattle.ply_mesh.specs.Body.{token_number};

use attr_heads::Bounds;
use ply_text::{int_at, read_int};

/// Whether a number lies within bounds.
#[tactic(auto, unfolding(attr_heads::specs::Bounds::in_bounds))]
pub(crate) fn is_within(bounds: Bounds, v: i64) -> bool
    ensures value { result ≡ in_bounds bounds v }
    ensures fits { IsTrue result → FitsSigned w32 v }
{
    bounds.least as i64 <= v && v <= bounds.greatest as i64
}

/// The number of a token, if it lies within bounds.
#[tactic(auto, using(crate::proofs::BoundedNumbers::bounded_none, crate::proofs::BoundedNumbers::bounded_out))]
pub(crate) fn number_of(bounds: Bounds, token: &[u8]) -> Option<i32>
    ensures { result ≡ token_number bounds token.now }
{
    let Some(v) = read_int(token) else {
        return None;
    };
    if !is_within(bounds, v) {
        return None;
    }
    Some(v as i32)
}

/// The number of the first token from `place` on, and the place after it, if it lies within bounds. None says nothing about
/// the token.
pub(crate) fn number_at(line: &[u8], place: usize, bounds: Bounds) -> Option<(i32, usize)>
    requires { place ≤ length line.now }
    ensures first { IfSome result (λ r. first_integer (tokens_of (drop place line.now)) ≡ Some (r.0, tokens_of (drop r.1 line.now))) }
    ensures within { IfSome result (λ r. r.1 ≤ length line.now) }
    ensures bounds { IfSome result (λ r. in_bounds bounds r.0 ≡ true) }
{
    let found = int_at(line, place, 1 << 31, i32::MAX as u32)?;
    if !bounds.hold(found.0) {
        return None;
    }
    Some(found)
}
