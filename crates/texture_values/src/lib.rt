//! Texture coordinates over a surface, in flat lists: corrections to values in place, and values to corrections and orientations. The
//! contract above it: each pair is what the face of its entry's corner foretells, where the entries of the other two corners come before,
//! else an entry before, corrected and wrapped into a range. It follows Draco 1.5.5, MeshPredictionSchemeTexCoordsPortable; its two faults
//! are this project's choice.
#![tactic(auto)]

mod chosen;
mod corners;
mod corrected;
mod foretold;
mod nearer;
mod pairs;
mod restored;

pub use corrected::correct_texture;
pub use restored::restore_texture;
