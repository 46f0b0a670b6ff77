//! Octahedral values of entries, predicted by the value before or by the normals of the faces round each entry: corrections to values in
//! place, and values to corrections. The contract above it: the values are those that the corrections restore by the prediction's steps,
//! and the corrections of values in canonical spelling restore these. After the Draco Bitstream Specification 2.2, section "Prediction
//! Difference", and Draco 1.5.5, geometric normals.
#![tactic(auto)]

mod differences;
mod laws;
mod normals;
mod pairs;
mod sums;

pub use differences::{correct_differences, restore_differences};
pub use laws::{corrections_restore, restored_are_as_many};
pub use normals::{correct_normals, restore_normals};
pub use sums::normals_round;
