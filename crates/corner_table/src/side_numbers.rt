//! Sides and corners by their numbers.

ghost use Rattle.std.specs.Prelude.{◌≡◌, ◌+◌, ◌*◌, ◌/◌, ◌<◌};
ghost use Rattle.drc_base.specs.declared.limits.TheConstants.{MAX_FACES as most_faces};
ghost use Rattle.corner_table.specs.Sides.{next, prev, number, side_at};
ghost use Rattle.corner_table.specs.Table.{side_of, free_entry};

use drc_base::Side;

/// The number 3f + k of a side or corner.
pub fn number_of(s: Side) -> u32
    requires { s.face < most_faces }
    ensures number { result ≡ number (side_of s) }
    ensures within { result < 3 * s.face + 3 }
{
    3 * s.face + u32::from(s.k)
}

/// The side or corner with a number.
pub fn side_with(number: u32) -> Side
    ensures side { side_of result ≡ side_at number }
    ensures face { result.face ≡ number / 3 }
{
    Side {
        face: number / 3,
        k: (number % 3) as u8,
    }
}

/// The number of the corner after one in its face.
pub fn next_number(corner: u32) -> u32
    requires { corner < free_entry }
    ensures number { result ≡ number (next (side_at corner)) }
    ensures corner { side_at result ≡ next (side_at corner) }
    ensures face { result / 3 ≡ corner / 3 }
{
    if corner % 3 == 2 {
        corner - 2
    } else {
        corner + 1
    }
}

/// The number of the corner before one in its face.
pub fn previous_number(corner: u32) -> u32
    requires { corner < free_entry }
    ensures number { result ≡ number (prev (side_at corner)) }
    ensures corner { side_at result ≡ prev (side_at corner) }
    ensures face { result / 3 ≡ corner / 3 }
{
    if corner % 3 == 0 {
        corner + 2
    } else {
        corner - 1
    }
}

/// The corner after `c` in its face.
pub(crate) fn next_of(c: Side) -> Side
    ensures { side_of result ≡ next (side_of c) }
{
    let k = match c.k {
        0 => 1,
        1 => 2,
        _ => 0,
    };
    Side { face: c.face, k }
}

/// The corner before `c` in its face.
pub(crate) fn previous_of(c: Side) -> Side
    ensures { side_of result ≡ prev (side_of c) }
{
    let k = match c.k {
        0 => 2,
        1 => 0,
        _ => 1,
    };
    Side { face: c.face, k }
}
