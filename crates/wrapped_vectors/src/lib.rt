//! Vectors of three whole numbers, their sums and products to 64 bits in two's complement, and the whole part of a square root. The
//! contract above it: each answer is the exact number, taken to 64 bits once. It follows Draco 1.5.5, VectorD and IntSqrt; that what
//! passes 64 bits wraps is this project's choice.
#![tactic(auto)]

mod places;
mod roots;
mod sums;
mod vectors;

pub use places::{Place, apart, difference_of};
pub use roots::root_of;
pub use sums::{difference, product, sum};
pub use vectors::{Vector, cross, dot, squared, vector_at, vector_sum};
