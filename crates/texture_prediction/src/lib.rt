//! Prediction of texture coordinates by the shape of a triangle. The contract above it: what the coordinates of a side's two corners and
//! the places of all three foretell for the third corner, by an orientation from the back of a list, or what is lacking; and
//! orientations as bits, both ways. It follows Draco 1.5.5, MeshPredictionSchemeTexCoordsPortable; that sums and products wrap at 64
//! bits, and what its two faults are called, is this project's choice.
#![tactic(auto)]

mod across;
mod faults;
mod laws;
mod numbers;
mod orientations;
mod pairs;
mod predictions;
mod projections;

pub use faults::Lacking;
pub use laws::orientations_come_back;
pub use orientations::{bits_to_orientations, orientations_to_bits};
pub use pairs::Pair;
pub use predictions::{over_side, picked_by};
pub use projections::{Candidates, Projected, project};
