//! Sums and products to 64 bits.

ghost use Rattle.std.specs.Prelude.{◌≡◌, ◌+ℤ◌, ◌-ℤ◌, ◌*ℤ◌};
ghost use Rattle.wrapped_vectors.specs.Wrapped.{signed};

/// The sum, to 64 bits in two's complement.
pub fn sum(a: i64, b: i64) -> i64
    ensures { result ≡ signed (a +ℤ b) }
{
    a.wrapping_add(b)
}

/// The difference, to 64 bits in two's complement.
pub fn difference(a: i64, b: i64) -> i64
    ensures { result ≡ signed (a -ℤ b) }
{
    a.wrapping_sub(b)
}

/// The product, to 64 bits in two's complement.
pub fn product(a: i64, b: i64) -> i64
    ensures { result ≡ signed (a *ℤ b) }
{
    a.wrapping_mul(b)
}
