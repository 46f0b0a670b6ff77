//! Prediction of values of the square by the difference to the value before.

ghost use Rattle.std.specs.Prelude.{◌≡◌};
ghost use Rattle.octahedron.specs.Restored.{restored_values, corrections_of, value_before};
ghost use Rattle.octahedron.specs.Pairs.{pairs_of, AreValues, AreCanonical};

use crate::pairs::{pair_at, point_before, put_pair};
use crate::points::point_at;
use crate::squares::Square;

/// Corrections to values in place, two integers for each: a value is predicted by the value before, the first one by the pair (0, 0)
/// (Draco Bitstream Specification 2.2, section "Prediction Difference").
pub fn restore_differences(square: Square, integers: &mut [i32])
    requires { AreValues square.centre integers.old }
    ensures values { pairs_of integers.new ≡ restored_values value_before square.centre (pairs_of integers.old) }
    ensures within { AreValues square.centre integers.new }
{
    let mut before = point_at(0, 0);
    for e in 0..integers.len() / 2 {
        let correction = pair_at(integers, e);
        before = square.restored_value(before, correction);
        put_pair(integers, e, before);
    }
}

/// Values to corrections in place, two integers for each, from which the values are restored if they are in canonical spelling. The
/// last one comes first, so that the value before each is still there.
pub fn correct_differences(square: Square, integers: &mut [i32])
    requires { AreValues square.centre integers.old }
    ensures corrections { pairs_of integers.new ≡ corrections_of value_before square.centre (pairs_of integers.old) }
    ensures within { AreValues square.centre integers.new }
    ensures restores { AreCanonical square.centre integers.old → restored_values value_before square.centre (pairs_of integers.new) ≡ pairs_of integers.old }
{
    for e in (0..integers.len() / 2).rev() {
        let value = pair_at(integers, e);
        let before = point_before(integers, e);
        put_pair(integers, e, square.correction_of(before, value));
    }
}
