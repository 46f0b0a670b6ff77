//! Laws of orders of entries and of the parallelograms round a vertex: the order by prediction degree is what its rule says, one
//! sentence at a time, and the way round a vertex has each corner of its fan once. They are laws over definitions: no function of
//! this crate does anything.
#![tactic(auto)]

mod laws;

pub use laws::{prediction_degree_is_its_rule, round_is_the_fan};
