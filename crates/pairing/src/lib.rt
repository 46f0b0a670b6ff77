//! Which sides of a mesh are glued. The contract above it: the table of a mesh's faces whose pairs
//! are those of the definition, or the first face with two equal positions; the surface is proper,
//! so that each corner of a face is in a fan of its own. The choice of pairs is this project's own.
#![tactic(auto)]

mod choosing;
mod classes;
mod degenerate;
mod laws;
mod positions;
mod surfaces;

pub use laws::carrying_keeps_pairs;
pub use surfaces::pair;
