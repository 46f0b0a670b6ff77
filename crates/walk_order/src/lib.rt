//! Orders of entries: which class of corners of a surface is coded when (Draco Bitstream Specification
//! 2.2, attribute traversal). The contract above it: both walks, depth first and by prediction degree,
//! give each class exactly one entry, in the order of their definitions.
#![tactic(auto)]

mod degree_walk;
mod depth_walk;
mod laws;
mod marks;
mod orders;
mod surface;

pub use degree_walk::prediction_degree;
pub use depth_walk::depth_first;
pub use laws::{orders_are_of_surfaces, orders_list_classes, walks_are_relations};
