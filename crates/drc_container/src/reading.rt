//! From bytes to a geometry: the stream, its attributes point by point or on a surface, and what is known of it.

pub mod ahead;
pub mod attributes;
pub mod decoders;
pub mod decoding;
pub mod edgebreaker;
pub mod info;
pub mod points;
pub mod positions;
pub mod surface_attributes;
