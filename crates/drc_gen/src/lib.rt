//! Meshes from a number: five kinds of triangle meshes, each given by a size and a seed. The contract
//! above it: `generate` answers exactly the mesh of the definition, whose points and faces are
//! functions of the cells of a square lattice and of the draws of a linear congruential generator, so
//! it is the same at each run. All of it is this project's choice.
#![tactic(auto)]

mod draws;
mod faces;
mod generating;
mod heads;
mod kinds;
mod laws;
mod points;
mod sizes;

pub use generating::generate;
pub use kinds::GenKind;
pub use laws::{generated_is_a_mesh, generated_is_proper};
pub use sizes::{LEAST_SIZE, MOST_SIZE};
