//! Prediction of octahedral values by the difference to the value before.

ghost use Rattle.std.specs.Prelude.{◌≡◌, ◌%◌, [], length, Ok};
ghost use Rattle.octahedron.specs.Pairs.{AreValues, AreCoordinates, AreCanonical};
ghost use Rattle.octahedral_values.specs.Steps.{difference, restored_integers, corrected_integers};

use octahedron::Square;

/// Corrections to values in place, two integers for each: a value is predicted by the value before, the first one by the pair (0, 0)
/// (Draco Bitstream Specification 2.2, section "Prediction Difference").
pub fn restore_differences(square: Square, values: &mut [i32])
    requires even { length values.old % 2 ≡ 0 }
    requires corrections { AreValues square.centre values.old }
    ensures values { restored_integers difference square.centre [] values.old ≡ Ok values.new }
    ensures within { AreCoordinates square.centre values.new }
{
    octahedron::restore_differences(square, values);
}

/// Values to corrections in place, two integers for each, from which the values are restored if they are in canonical spelling.
pub fn correct_differences(square: Square, values: &mut [i32])
    requires even { length values.old % 2 ≡ 0 }
    requires values { AreValues square.centre values.old }
    ensures corrections { corrected_integers difference square.centre [] values.old ≡ Ok values.new }
    ensures within { AreCoordinates square.centre values.new }
    ensures restores { AreCanonical square.centre values.old → restored_integers difference square.centre [] values.new ≡ Ok values.old }
{
    octahedron::correct_differences(square, values);
}
