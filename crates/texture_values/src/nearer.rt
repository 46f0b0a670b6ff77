//! The orientation that is written for a pair: that of the candidate that is nearer to it.

ghost use Rattle.std.specs.Prelude.{◌≡◌, ◌≢◌, pos, neg_ℤ, int_div};
ghost use Rattle.texture_values.specs.Chosen.{whole_candidate, squares, off_by, nearer};

use texture_prediction::{Candidates, Pair};
use wrapped_vectors::{difference, product, sum};

/// The quotient, toward zero.
fn quotient(a: i64, d: i64) -> i64
    requires some { d ≢ pos 0 }
    requires more { d ≢ neg_ℤ (pos 1) }
    ensures { result ≡ int_div a d }
{
    a / d
}

/// A coordinate of one of the candidates, before it is taken to 32 bits.
fn whole_candidate(along: i64, across: i64, square: i64, plus: bool) -> i64
    requires some { square ≢ pos 0 }
    requires more { square ≢ neg_ℤ (pos 1) }
    ensures { result ≡ whole_candidate along across square plus }
{
    let sum = if plus {
        sum(along, across)
    } else {
        difference(along, across)
    };
    quotient(sum, square)
}

/// The sum of two squares, to 64 bits.
fn squares(a: i64, b: i64) -> i64
    ensures { result ≡ squares a b }
{
    sum(product(a, a), product(b, b))
}

/// How far a pair is off the candidate of an orientation: the square of the distance, to 64 bits.
fn off_by(c: Candidates, x: Pair, plus: bool) -> i64
    requires some { c.square ≢ pos 0 }
    requires more { c.square ≢ neg_ℤ (pos 1) }
    ensures { result ≡ off_by c x plus }
{
    let u = whole_candidate(c.along_u, c.across_u, c.square, plus);
    let v = whole_candidate(c.along_v, c.across_v, c.square, plus);
    squares(difference(x.u as i64, u), difference(x.v as i64, v))
}

/// Whether a pair is nearer to the candidate of an orientation that is set.
pub(crate) fn nearer(c: Candidates, x: Pair) -> bool
    requires some { c.square ≢ pos 0 }
    requires more { c.square ≢ neg_ℤ (pos 1) }
    ensures { result ≡ nearer c x }
{
    off_by(c, x, true) < off_by(c, x, false)
}
