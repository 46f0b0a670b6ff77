//! The frame of a prediction: how it is moved to the bottom left of the diamond, and what is corrected with it.

ghost use Rattle.std.specs.Prelude.{◌≡◌, ◌-◌, ◌%◌, ◌<◌, if◌then◌else◌};
ghost use Rattle.octahedron.specs.Square.{IsIn, is_outside, flip};
ghost use Rattle.octahedron.specs.Corrections.{IsBottomLeft, turn, quarters, quarters_of, moved};

use crate::points::{Point, point_at};
use crate::squares::Square;

/// How a prediction is moved to the bottom left of the diamond: flipped where it lies outside, then turned. And where it comes to.
#[derive(Clone, Copy, Debug)]
pub(crate) struct Frame {
    pub outside: bool,
    pub quarters: u32,
    pub base: Point,
    ghost few: { quarters < 4 },
}

/// The quarters that turn a point to the bottom left (Draco 1.5.5, canonicalized octahedral transform).
#[tactic(auto, unfolding(crate::specs::Corrections::quarters))]
fn quarters_for(p: Point) -> u32
    ensures value { result ≡ quarters p }
    ensures few { result < 4 }
{
    if p.s < 0 {
        if p.t > 0 { 3 } else { 0 }
    } else if p.s > 0 {
        if p.t < 0 { 1 } else { 2 }
    } else if p.t > 0 {
        3
    } else if p.t < 0 {
        1
    } else {
        0
    }
}

impl Square {
    /// A turn by 0 to 3 quarters.
    fn turned(self, quarters: u32, p: Point) -> Point
        requires few { quarters < 4 }
        requires inside { IsIn self.centre p }
        ensures value { result ≡ turn quarters p }
        ensures inside { IsIn self.centre result }
    {
        if quarters == 0 {
            p
        } else if quarters == 1 {
            point_at(p.t, -p.s)
        } else if quarters == 2 {
            point_at(-p.s, -p.t)
        } else {
            point_at(-p.t, p.s)
        }
    }

    /// The frame of a prediction.
    pub(crate) fn frame(self, p: Point) -> Frame
        requires { IsIn self.centre p }
        ensures outside { result.outside ≡ is_outside self.centre p }
        ensures quarters { result.quarters ≡ quarters_of self.centre p }
        ensures base { result.base ≡ moved self.centre p p }
        ensures inside { IsIn self.centre result.base }
        ensures low { IsBottomLeft result.base }
    {
        let outside = self.is_outside(p);
        let inner = self.flipped_if(outside, p);
        let quarters = quarters_for(inner);
        Frame {
            outside,
            quarters,
            base: self.turned(quarters, inner),
        }
    }

    /// A point, moved into a frame.
    pub(crate) fn moved(self, frame: Frame, v: Point) -> Point
        requires { IsIn self.centre v }
        ensures value { result ≡ turn frame.quarters (if frame.outside then flip self.centre v else v) }
        ensures inside { IsIn self.centre result }
    {
        let inner = self.flipped_if(frame.outside, v);
        self.turned(frame.quarters, inner)
    }

    /// A point, moved back out of a frame.
    pub(crate) fn moved_back(self, frame: Frame, x: Point) -> Point
        requires { IsIn self.centre x }
        ensures value { result ≡ (let z = turn ((4 - frame.quarters) % 4) x in if frame.outside then flip self.centre z else z) }
        ensures inside { IsIn self.centre result }
    {
        let z = self.turned((4 - frame.quarters) % 4, x);
        self.flipped_if(frame.outside, z)
    }
}
