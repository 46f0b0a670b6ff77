//! Prediction of octahedral values by the normals of the faces round each entry.

ghost use Rattle.std.specs.Prelude.{◌≡◌, ◌*◌, length, Ok};
ghost use Rattle.octahedron.specs.Directions.{IsOnOctahedron};
ghost use Rattle.octahedron.specs.Corrections.{correction_of};
ghost use Rattle.octahedron.specs.Pairs.{pairs_of, AreValues, AreCoordinates, AreCanonical};
ghost use Rattle.octahedron.specs.Square.{IsValue};
ghost use Rattle.octahedral_values.specs.Steps.{directed_value, geometric_normal, normal_value, is_flipped, flips_of};
ghost use Rattle.octahedral_values.specs.Steps.{restored_integers, corrected_integers};

use crate::pairs::{pair_at, put_pair};
use normal_prediction::{direction_of, opposite};
use octahedron::{Direction, Point, Square};
use wrapped_vectors::Vector;

/// The value of a direction, or of the opposite one where it is flipped.
fn directed_value(square: Square, v: Direction, flip: bool) -> Point
    requires { IsOnOctahedron square.centre v }
    ensures value { result ≡ directed_value square.centre v flip }
    ensures within { IsValue square.centre result }
{
    if flip {
        square.octahedral_value(opposite(square, v))
    } else {
        square.octahedral_value(v)
    }
}

/// The value that a sum of normals predicts, with this flip.
#[tactic(auto, unfolding(crate::specs::Steps::normal_value))]
fn predicted_value(square: Square, sum: Vector, flip: bool) -> Point
    ensures value { result ≡ normal_value square.centre sum flip }
    ensures within { IsValue square.centre result }
{
    let v = direction_of(square, sum);
    directed_value(square, v, flip)
}

/// Corrections to values in place, two integers for each: a value is predicted by the sum of the normals of the faces round its entry,
/// and by the opposite direction where the entry's flip is set (Draco 1.5.5, MeshPredictionSchemeGeometricNormalDecoder).
pub fn restore_normals(square: Square, sums: &[Vector], flips: &[bool], values: &mut [i32])
    requires pairs { length values.old ≡ 2 * length sums.now }
    requires flips { length flips.now ≡ length sums.now }
    requires corrections { AreValues square.centre values.old }
    ensures values { restored_integers (geometric_normal square.centre sums.now) square.centre flips.now values.old ≡ Ok values.new }
    ensures within { AreCoordinates square.centre values.new }
{
    for e in 0..sums.len() {
        let predicted = predicted_value(square, sums[e], flips[e]);
        let correction = pair_at(values, e);
        put_pair(values, e, square.restored_value(predicted, correction));
    }
}

/// The flip that an encoder chooses for a value, and the correction with it: the prediction is flipped where the correction is no smaller
/// without (Draco 1.5.5, MeshPredictionSchemeGeometricNormalEncoder).
#[tactic(auto, unfolding(crate::specs::Steps::normal_value))]
fn chosen(square: Square, sum: Vector, value: Point) -> (bool, Point)
    requires { IsValue square.centre value }
    ensures flip { result.0 ≡ is_flipped square.centre sum value }
    ensures correction { result.1 ≡ correction_of square.centre (normal_value square.centre sum result.0) value }
    ensures within { IsValue square.centre result.1 }
{
    let v = direction_of(square, sum);
    let ahead = square.correction_of(directed_value(square, v, false), value);
    let opposite = square.correction_of(directed_value(square, v, true), value);
    if square.size(ahead) < square.size(opposite) {
        (false, ahead)
    } else {
        (true, opposite)
    }
}

/// Values to corrections in place, two integers for each, and the flip of each: a value is predicted by the sum of the normals of the
/// faces round its entry, and by the opposite direction where its correction is no smaller without. From the corrections and the flips
/// the values are restored if they are in canonical spelling (Draco 1.5.5, MeshPredictionSchemeGeometricNormalEncoder).
pub fn correct_normals(square: Square, sums: &[Vector], flips: &mut [bool], values: &mut [i32])
    requires pairs { length values.old ≡ 2 * length sums.now }
    requires flips { length flips.old ≡ length sums.now }
    requires values { AreValues square.centre values.old }
    ensures flips { flips.new ≡ flips_of square.centre sums.now (pairs_of values.old) }
    ensures corrections { corrected_integers (geometric_normal square.centre sums.now) square.centre flips.new values.old ≡ Ok values.new }
    ensures within { AreCoordinates square.centre values.new }
    ensures restores { AreCanonical square.centre values.old → restored_integers (geometric_normal square.centre sums.now) square.centre flips.new values.new ≡ Ok values.old }
{
    for e in 0..sums.len() {
        let value = pair_at(values, e);
        let (flip, correction) = chosen(square, sums[e], value);
        flips[e] = flip;
        put_pair(values, e, correction);
    }
}
