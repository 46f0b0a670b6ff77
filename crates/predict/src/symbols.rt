//! The symbols of integers.

ghost use Rattle.std.specs.Prelude.{◌≡◌, IfOk, map};
ghost use Rattle.predict.specs.Symbols.{zigzag_of};

use std::alloc::{AllocError, Global};

/// The zigzag symbol of an integer.
pub fn symbol_of(x: i32) -> u32
    ensures { result ≡ zigzag_of x }
{
    if x < 0 {
        (-1 - x) as u32 * 2 + 1
    } else {
        x as u32 * 2
    }
}

/// The zigzag symbols of integers (Draco Bitstream Specification 2.2, section "Sequential Attributes").
pub fn symbols_of(alloc: Global, values: &[i32]) -> Result<Vec<u32>, AllocError>
    ensures { IfOk result (λ v. v.items ≡ map zigzag_of values.now) }
{
    values.iter().map(|x| symbol_of(*x)).collect(alloc)
}
