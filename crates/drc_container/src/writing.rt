//! From a geometry to bytes: the values that are coded, the parts of the stream, and the stream by either method.

pub mod coded_values;
pub mod decoders;
pub mod edgebreaker;
pub mod encoding;
pub mod preludes;
pub mod sequential;
pub mod surface_values;
