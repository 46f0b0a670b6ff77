//! Values of the square, which count from its first corner, and their corrections.

ghost use Rattle.std.specs.Prelude.{◌≡◌, ◌↔◌, IsTrue};
ghost use Rattle.octahedron.specs.Square.{IsIn, IsValue, IsCanonicalValue, centred, value_at};
ghost use Rattle.octahedron.specs.Corrections.{restored_value, correction_of, spelled_value};
ghost use Rattle.octahedron.specs.Directions.{IsOnOctahedron, octahedral_value};

use crate::points::{Direction, Point, point_at};
use crate::squares::Square;

impl Square {
    /// The point of a value.
    pub fn centred(self, v: Point) -> Point
        requires { IsValue self.centre v }
        ensures point { result ≡ centred self.centre v }
        ensures inside { IsIn self.centre result }
    {
        point_at(v.s - self.centre, v.t - self.centre)
    }

    /// The value of a point.
    pub fn value_at(self, p: Point) -> Point
        requires { IsIn self.centre p }
        ensures value { result ≡ value_at self.centre p }
        ensures within { IsValue self.centre result }
    {
        point_at(p.s + self.centre, p.t + self.centre)
    }

    /// Whether a value is in canonical spelling.
    pub fn is_canonical(self, v: Point) -> bool
        requires { IsValue self.centre v }
        ensures { IsTrue result ↔ IsCanonicalValue self.centre v }
    {
        let p = self.centred(v);
        let q = self.canonical(p);
        q.s == p.s && q.t == p.t
    }

    /// The value at this predicted value and correction (Draco 1.5.5, canonicalized octahedral transform).
    pub fn restored_value(self, predicted: Point, correction: Point) -> Point
        requires predicted { IsValue self.centre predicted }
        requires correction { IsValue self.centre correction }
        ensures value { result ≡ restored_value self.centre predicted correction }
        ensures within { IsValue self.centre result }
    {
        let p = self.centred(predicted);
        self.value_at(self.restored(p, correction))
    }

    /// The correction of a value at this predicted value (Draco 1.5.5, canonicalized octahedral transform). Where the predicted value
    /// lies in the diamond it restores the value, and where it lies outside the value's canonical spelling.
    pub fn correction_of(self, predicted: Point, value: Point) -> Point
        requires predicted { IsValue self.centre predicted }
        requires value { IsValue self.centre value }
        ensures correction { result ≡ correction_of self.centre predicted value }
        ensures within { IsValue self.centre result }
        ensures restores { restored_value self.centre predicted result ≡ spelled_value self.centre predicted value }
        ensures canonical { IsCanonicalValue self.centre value → restored_value self.centre predicted result ≡ value }
    {
        let p = self.centred(predicted);
        let v = self.centred(value);
        self.correction(p, v)
    }

    /// The value of a direction whose components' sizes add up to c, in canonical spelling: its y and z where x is from 0 on,
    /// else these flipped (Draco 1.5.5, octahedral coordinates of an integer vector).
    pub fn octahedral_value(self, v: Direction) -> Point
        requires { IsOnOctahedron self.centre v }
        ensures value { result ≡ octahedral_value self.centre v }
        ensures within { IsValue self.centre result }
        ensures canonical { IsCanonicalValue self.centre result }
    {
        let p = self.flipped_if(v.x < 0, point_at(v.y, v.z));
        self.value_at(p)
    }
}
