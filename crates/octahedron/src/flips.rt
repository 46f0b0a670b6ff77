//! The diamond in the square, and the two spellings of a point of the border.

ghost use Rattle.std.specs.Prelude.{◌≡◌, if◌then◌else◌};
ghost use Rattle.octahedron.specs.Square.{IsIn, IsCanonical, is_outside, flip, canonical};

use crate::points::{Point, point_at};
use crate::squares::Square;

impl Square {
    /// Whether a point lies outside the diamond |s| + |t| <= c.
    pub(crate) fn is_outside(self, p: Point) -> bool
        requires { IsIn self.centre p }
        ensures { result ≡ is_outside self.centre p }
    {
        p.s.abs() + p.t.abs() > self.centre
    }

    /// The exchange of the diamond with the four triangles round it: each quarter of the square is mirrored at the side of the diamond in
    /// it (Draco 1.5.5, canonicalized octahedral transform).
    pub fn flip(self, p: Point) -> Point
        requires { IsIn self.centre p }
        ensures value { result ≡ flip self.centre p }
        ensures inside { IsIn self.centre result }
    {
        let c = self.centre;
        let s = p.s;
        let t = p.t;
        if s > 0 {
            if t < 0 {
                point_at(t + c, s - c)
            } else {
                point_at(c - t, c - s)
            }
        } else if s < 0 {
            if t > 0 {
                point_at(t - c, s + c)
            } else {
                point_at(-c - t, -c - s)
            }
        } else if t < 0 {
            point_at(-c - t, -c)
        } else {
            point_at(c - t, c)
        }
    }

    /// The point, flipped if it is to be.
    pub(crate) fn flipped_if(self, outside: bool, p: Point) -> Point
        requires { IsIn self.centre p }
        ensures value { result ≡ (if outside then flip self.centre p else p) }
        ensures inside { IsIn self.centre result }
    {
        if outside { self.flip(p) } else { p }
    }

    /// The canonical spelling of a point: of the two points of the border that stand for one direction the one that is kept, the
    /// last corner for each corner, and any other point itself. It is the point, flipped twice (Draco 1.5.5, canonicalized
    /// octahedral transform).
    pub fn canonical(self, p: Point) -> Point
        requires { IsIn self.centre p }
        ensures value { result ≡ canonical self.centre p }
        ensures inside { IsIn self.centre result }
        ensures canonical { IsCanonical self.centre result }
    {
        let once = self.flip(p);
        self.flip(once)
    }
}
