//! Projections of a third corner on a side: the foot of the corner on the side, its height over it, and by both the two coordinates that
//! the corner may have, as the triangle lies on one side of the edge or on the other.

ghost use Rattle.std.specs.Prelude.{◌≡◌, ◌≢◌, ◌<◌, pos, neg_ℤ};
ghost use Rattle.wrapped_vectors.specs.Vectors.{squared};
ghost use Rattle.texture_prediction.specs.Projection.{Divides, candidates, projection, candidate};

use crate::across::{across_at, along_at, from_foot, height};
use crate::numbers::{is_far, is_wide, low_bits, quotient, with_sign};
use crate::pairs::Pair;
use wrapped_vectors::{Place, Vector, apart, difference, dot, squared, sum};

/// What both candidates for the third corner are made of: the sum and the difference of two pairs of numbers of 64 bits, divided by a third
/// number.
#[derive(Clone, Copy, Debug)]
pub struct Candidates {
    /// The first coordinate at the foot of the corner, times the square of the side's length.
    pub along_u: i64,
    /// The second coordinate there, times the same.
    pub along_v: i64,
    /// How far the first coordinate comes across the side, times the square of the side's length.
    pub across_u: i64,
    /// How far the second coordinate comes across the side, times the same.
    pub across_v: i64,
    /// The square of the side's length, its 64 bits with a sign: neither 0 nor -1 in what `project` answers.
    pub square: i64,
}

/// What is known of a third corner.
#[derive(Clone, Copy, Debug)]
pub enum Projected {
    /// The side has no length, modulo 2^64.
    Short,
    /// Numbers are too great.
    Great,
    /// There are two candidates.
    At(Candidates),
}

/// Both candidates.
fn both(tip: Place, n: Place, d: Vector, along: i64, square: u64, a: Pair, b: Pair) -> Candidates
    requires square { square ≡ squared d }
    requires some { 0 < square }
    ensures { result ≡ candidates tip n d along square a b }
{
    let divisor = with_sign(square);
    let rise = height(from_foot(tip, n, d, along, divisor), square);
    Candidates {
        along_u: along_at(a.u, b.u, along, divisor),
        along_v: along_at(a.v, b.v, along, divisor),
        across_u: across_at(a.v, b.v, rise),
        across_v: across_at(b.u, a.u, rise),
        square: divisor,
    }
}

/// What is known of the corner at `tip`, over the side from the next corner, at place `n` with coordinates `a`, to the previous one, at
/// place `p` with coordinates `b` (Draco 1.5.5, MeshPredictionSchemeTexCoordsPortablePredictor). No candidate is divided by 0 or by -1,
/// so no quotient leaves 64 bits.
pub fn project(tip: Place, n: Place, p: Place, a: Pair, b: Pair) -> Projected
    ensures projection { result ≡ projection tip n p a b }
    ensures divides { Divides result }
{
    let d = apart(p, n);
    let square = squared(d);
    if square == 0 {
        return Projected::Short;
    }
    let along = dot(d, apart(tip, n));
    if is_wide(a, square) {
        return Projected::Great;
    }
    if is_far(d, along) {
        return Projected::Great;
    }
    Projected::At(both(tip, n, d, along, square, a, b))
}

/// A coordinate of one of the candidates, to 32 bits.
pub fn coordinate(along: i64, across: i64, square: i64, plus: bool) -> i32
    requires some { square ≢ pos 0 }
    requires more { square ≢ neg_ℤ (pos 1) }
    ensures { result ≡ candidate along across square plus }
{
    let sum = if plus {
        sum(along, across)
    } else {
        difference(along, across)
    };
    low_bits(quotient(sum, square))
}
