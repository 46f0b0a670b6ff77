//! Sums of 32-bit numbers, whole or brought back to 32 bits.

ghost use Rattle.std.specs.Prelude.{◌≡◌, pos, ◌+ℤ◌, ◌-ℤ◌, int_div, FitsSigned};
ghost use Rattle.std.specs.Int.{w32, int_wrap};

/// The whole sum.
pub fn sum(a: i32, b: i32) -> i64
    ensures { result ≡ a +ℤ b }
{
    a as i64 + b as i64
}

/// The difference, which has 32 bits.
pub fn difference(a: i32, b: i32) -> i32
    requires { FitsSigned w32 (a -ℤ b) }
    ensures { result ≡ a -ℤ b }
{
    a - b
}

/// The sum, which has 32 bits.
pub fn sum_within(a: i32, b: i32) -> i32
    requires { FitsSigned w32 (a +ℤ b) }
    ensures { result ≡ a +ℤ b }
{
    a + b
}

/// The sum, brought back to 32 bits in two's complement.
pub fn wrapping_sum(a: i32, b: i32) -> i32
    ensures { result ≡ int_wrap w32 (a +ℤ b) }
{
    a.wrapping_add(b)
}

/// The difference, brought back to 32 bits in two's complement.
pub fn wrapping_difference(a: i32, b: i32) -> i32
    ensures { result ≡ int_wrap w32 (a -ℤ b) }
{
    a.wrapping_sub(b)
}

/// Half of a number, toward zero.
pub fn half(x: i32) -> i32
    ensures { result ≡ int_div x (pos 2) }
{
    x / 2
}

/// A third of a number, toward zero.
pub fn third(x: i32) -> i32
    ensures { result ≡ int_div x (pos 3) }
{
    x / 3
}

/// A quarter of a number, toward zero.
pub fn quarter(x: i32) -> i32
    ensures { result ≡ int_div x (pos 4) }
{
    x / 4
}
