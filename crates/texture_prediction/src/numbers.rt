//! Numbers of 64 bits with and without a sign, and the two tests of their size.

ghost use Rattle.std.specs.Prelude.{◌≡◌, ◌*◌, ◌-◌, ◌/◌, ◌%◌, ◌^◌, ◌<◌, ◌≢◌, pos, ◌*ℤ◌, ◌-ℤ◌, ◌+ℤ◌, neg_ℤ, int_div, int_lt, nat_lt, max, unsigned_abs};
ghost use Rattle.std.specs.Int.{w32, int_wrap};
ghost use Rattle.wrapped_vectors.specs.Wrapped.{signed};
ghost use Rattle.texture_prediction.specs.Projection.{greatest, is_wide, is_far};

use crate::pairs::Pair;
use wrapped_vectors::Vector;

/// The greatest number of 64 bits with a sign, 2^63 - 1.
const GREATEST: u64 = 0x7fff_ffff_ffff_ffff;

/// The bits of a number, with a sign.
pub fn with_sign(n: u64) -> i64
    ensures { result ≡ signed (pos n) }
{
    n.cast_signed()
}

/// The greatest size of a component.
pub fn greatest(d: Vector) -> u64
    ensures { result ≡ greatest d }
{
    let x = d.x.unsigned_abs();
    let y = d.y.unsigned_abs();
    let z = d.z.unsigned_abs();
    x.max(y.max(z))
}

/// Whether coordinates are too great beside a side whose length has this square.
pub fn is_wide(a: Pair, square: u64) -> bool
    requires { 0 < square }
    ensures { result ≡ is_wide a square }
{
    let u = a.u.unsigned_abs();
    let v = a.v.unsigned_abs();
    u.max(v) as u64 > GREATEST / square
}

/// Whether the foot of the third corner lies too far along this side.
pub fn is_far(d: Vector, along: i64) -> bool
    requires { 0 < greatest d }
    ensures { result ≡ is_far d along }
{
    let most = GREATEST / greatest(d);
    along > most as i64
}

/// The quotient, toward zero.
pub fn quotient(a: i64, d: i64) -> i64
    requires some { d ≢ pos 0 }
    requires more { d ≢ neg_ℤ (pos 1) }
    ensures { result ≡ int_div a d }
{
    a / d
}

/// The low 32 bits of a number, with a sign.
pub fn low_bits(n: i64) -> i32
    ensures { result ≡ int_wrap w32 n }
{
    ((n.cast_unsigned() & 0xffff_ffff) as u32).cast_signed()
}
