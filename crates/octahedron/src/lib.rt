//! Octahedral normals: directions folded onto a square, predictions of them, and corrections. The contract above it: a value is
//! restored from its correction at any prediction of the square, in the spelling that the prediction gives it, and stays in the
//! square. After Draco 1.5.5, canonicalized octahedral transform, and the Draco Bitstream Specification 2.2, section "Prediction
//! Difference"; that all numbers are whole is this project's choice.
#![tactic(auto)]

mod checks;
mod corrections;
mod differences;
mod flips;
mod frames;
mod laws;
mod pairs;
mod points;
mod squares;
mod values;

pub use differences::{correct_differences, restore_differences};
pub use laws::{corrections_restore, flip_twice};
pub use points::{Direction, Point};
pub use squares::Square;
