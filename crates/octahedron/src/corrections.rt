//! Points from predictions and corrections, and corrections of points.

ghost use Rattle.std.specs.Prelude.{◌≡◌, ◌+ℤ◌, ◌≤ℤ◌, neg_ℤ, pos};
ghost use Rattle.octahedron.specs.Square.{IsIn, IsCanonical, IsValue};
ghost use Rattle.octahedron.specs.Corrections.{folded, lifted, restored, correction, spelled, size};

use crate::points::{Point, point_at};
use crate::squares::Square;

impl Square {
    /// A sum, brought back by the width of the square where it has left it.
    fn folded(self, x: i32) -> i32
        requires least { neg_ℤ self.centre ≤ℤ x }
        requires greatest { x ≤ℤ (self.centre +ℤ self.centre) }
        ensures value { result ≡ folded self.centre x }
        ensures least { neg_ℤ self.centre ≤ℤ result }
        ensures greatest { result ≤ℤ self.centre }
    {
        if x > self.centre {
            x - (self.centre + self.centre + 1)
        } else {
            x
        }
    }

    /// A difference as a number from 0 on, by the width of the square where it is negative.
    fn lifted(self, x: i32) -> i32
        requires least { neg_ℤ (self.centre +ℤ self.centre) ≤ℤ x }
        requires greatest { x ≤ℤ (self.centre +ℤ self.centre) }
        ensures value { result ≡ lifted self.centre x }
        ensures least { pos 0 ≤ℤ result }
        ensures greatest { result ≤ℤ (self.centre +ℤ self.centre) }
    {
        if x < 0 {
            x + (self.centre + self.centre + 1)
        } else {
            x
        }
    }

    /// The point at this prediction and correction (Draco 1.5.5, canonicalized octahedral transform).
    pub fn restored(self, prediction: Point, correction: Point) -> Point
        requires inside { IsIn self.centre prediction }
        requires correction { IsValue self.centre correction }
        ensures value { result ≡ restored self.centre prediction correction }
        ensures inside { IsIn self.centre result }
    {
        let frame = self.frame(prediction);
        let s = self.folded(frame.base.s + correction.s);
        let t = self.folded(frame.base.t + correction.t);
        self.moved_back(frame, point_at(s, t))
    }

    /// The correction of a point at this prediction (Draco 1.5.5, canonicalized octahedral transform). Where the prediction lies in
    /// the diamond it restores the point, and where it lies outside the point's canonical spelling.
    pub fn correction(self, prediction: Point, point: Point) -> Point
        requires prediction { IsIn self.centre prediction }
        requires point { IsIn self.centre point }
        ensures value { result ≡ correction self.centre prediction point }
        ensures within { IsValue self.centre result }
        ensures restores { restored self.centre prediction result ≡ spelled self.centre prediction point }
        ensures canonical { IsCanonical self.centre point → restored self.centre prediction result ≡ point }
    {
        let frame = self.frame(prediction);
        let there = self.moved(frame, point);
        let s = self.lifted(there.s - frame.base.s);
        let t = self.lifted(there.t - frame.base.t);
        point_at(s, t)
    }

    /// The size of a correction, at most 2c: the sum of how far it goes in s and in t, by the nearer way round the square. An
    /// encoder that has two predictions takes the one whose correction is smaller (Draco 1.5.5, geometric normals).
    pub fn size(self, correction: Point) -> u32
        requires { IsValue self.centre correction }
        ensures size { result ≡ size self.centre correction }
        ensures most { pos result ≤ℤ (self.centre +ℤ self.centre) }
    {
        self.folded(correction.s).unsigned_abs() + self.folded(correction.t).unsigned_abs()
    }
}
