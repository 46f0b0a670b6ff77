//! Whether integers are values of the square, and in canonical spelling.

ghost use Rattle.std.specs.Prelude.{◌↔◌, IsTrue};
ghost use Rattle.octahedron.specs.Pairs.{IsCoordinate, AreCoordinates, AreValues, AreCanonical};

use crate::pairs::pair_at;
use crate::squares::Square;

impl Square {
    /// Whether an integer is from 0 to 2c.
    fn is_coordinate(self, x: i32) -> bool
        ensures { IsTrue result ↔ IsCoordinate self.centre x }
    {
        0 <= x && x <= self.centre + self.centre
    }

    /// Whether all these integers, two for each value or correction, are from 0 to 2c.
    pub fn are_values(self, integers: &[i32]) -> bool
        ensures exact { IsTrue result ↔ AreCoordinates self.centre integers.now }
        ensures values { IsTrue result → AreValues self.centre integers.now }
    {
        integers.iter().all(|x| self.is_coordinate(*x))
    }

    /// Whether all values, two integers for each, are in canonical spelling.
    pub fn are_canonical(self, integers: &[i32]) -> bool
        requires { AreValues self.centre integers.now }
        ensures { IsTrue result ↔ AreCanonical self.centre integers.now }
    {
        for e in 0..integers.len() / 2 {
            if !self.is_canonical(pair_at(integers, e)) {
                return false;
            }
        }
        true
    }
}
