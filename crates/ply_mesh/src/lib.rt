//! Geometry as ASCII PLY text, both ways. The contract above it: reading gives the geometry that a
//! definition on lines and tokens gives, or its first fault with its line; what is written for a
//! geometry is read as that geometry. It follows PLY 1.0, in the profile of docs/PLY.md.
#![tactic(auto)]

mod bodies;
mod columns;
mod face_lines;
mod faces_ahead;
mod head_writer;
mod header_writer;
mod laws;
mod numbers;
mod points;
mod property_writer;
mod reading;
mod rows;
mod rows_ahead;
mod text_sink;
mod texts;
mod writing;

pub use laws::text_is_read_again;
pub use reading::read_ply;
pub use texts::{PlyText, write_ply};
