//! The symbols L and R as one. The new face of either is glued to the top side by one side, and the
//! corner across from that side is a new vertex. They differ in which side it is.

ghost use Rattle.std.specs.Prelude.{◌≡◌, ◌+◌, ◌*◌, ◌<◌, ◌≤◌};
ghost use Rattle.drc_base.specs.declared.limits.TheConstants.{MAX_FACES as most_faces};
ghost use Rattle.corner_table.specs.Sides.{side, place_of, next, prev, number};

/// Which face beside the new one alone is visited before it in the encoder's order (Rossignac 1999).
#[derive(Debug, Clone, Copy)]
pub enum Beside {
    /// L: side 1 is glued.
    Left,
    /// R: side 2 is glued.
    Right,
}

impl Beside {
    ghost use Rattle.eb_machine.specs.Beside.{glued_place, new_triangle};

    /// The side of the new face that is glued to the top side.
    #[inline(always)]
    pub fn glued(self) -> u8
        ensures within { result < 3 }
        ensures place { place_of result ≡ glued_place self }
    {
        match self {
            Beside::Left => 1,
            Beside::Right => 2,
        }
    }

    /// The number of the side after the glued one, which starts where the top side does.
    #[inline(always)]
    pub fn side_after(self, face: u32) -> u32
        requires { face < most_faces }
        ensures side { result ≡ number (next (side face (glued_place self))) }
        ensures within { result < 3 * face + 3 }
    {
        match self {
            Beside::Left => 3 * face + 2,
            Beside::Right => 3 * face,
        }
    }

    /// The number of the side before the glued one, which starts at the new vertex.
    #[inline(always)]
    pub fn side_before(self, face: u32) -> u32
        requires { face < most_faces }
        ensures side { result ≡ number (prev (side face (glued_place self))) }
        ensures within { result < 3 * face + 3 }
    {
        match self {
            Beside::Left => 3 * face,
            Beside::Right => 3 * face + 1,
        }
    }

    /// The names of the new face's corners, where the top side runs from one vertex to another.
    #[inline(always)]
    pub fn triangle(self, from: u32, to: u32, vertex: u32) -> (u32, u32, u32)
        ensures { result ≡ new_triangle self from to vertex }
    {
        match self {
            Beside::Left => (from, vertex, to),
            Beside::Right => (to, from, vertex),
        }
    }
}
