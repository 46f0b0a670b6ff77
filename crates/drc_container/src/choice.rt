//! What is chosen of an encoding, what a choice says of it, and which choices and geometries are refused.

pub mod choices;
pub mod choosing;
pub mod codings;
pub mod methods;
pub mod predicts;
pub mod refusals;
