//! The whole part of a square root, by Newton's way: a guess from above, of which the mean with the number over the guess is the next
//! one, still not below the root, until it isn't less.

ghost use Rattle.std.specs.Prelude.{◌≡◌, ◌+◌, ◌*◌, ◌/◌, ◌<◌, ◌≤◌, ◌^◌};
ghost use Rattle.wrapped_vectors.specs.Roots.{root};

/// A first guess, which isn't below the root.
fn first_guess(x: u64) -> u64
    requires { 0 < x }
    ensures above { root x ≤ result }
    ensures small { result ≤ 2 ^ 32 }
{
    1 << (x.ilog2() / 2 + 1)
}

/// The next guess behind one that isn't below the root.
fn next_guess(x: u64, r: u64) -> u64
    requires some { 0 < x }
    requires above { root x ≤ r }
    requires small { r ≤ 2 ^ 32 }
    ensures value { result ≡ (r + x / r) / 2 }
    ensures above { root x ≤ result }
{
    (r + x / r) / 2
}

/// The greatest number whose square is at most this one (Draco 1.5.5, IntSqrt). It has 32 bits.
pub fn root_of(x: u64) -> u64
    ensures value { result ≡ root x }
    ensures small { result < 2 ^ 32 }
{
    if x == 0 {
        return 0;
    }
    let mut r = first_guess(x);
    let mut next = next_guess(x, r);
    while next < r {
        r = next;
        next = next_guess(x, r);
    }
    r
}
