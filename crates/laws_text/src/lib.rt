//! Laws of PLY texts: a header is read exactly where the lines begin with the shape that docs/PLY.md says, and a text means a
//! geometry exactly where its lines have the shape of a text; both are what the lines say. They are laws over definitions: no
//! function of this crate does anything.
#![tactic(auto)]

mod laws;

pub use laws::{headers_are_shapes, texts_are_shapes};
