//! Worked surfaces for the tests of the other crates: faces as lists of three points, pairs of sides and the tables made
//! of them, the order of decoding, and streams. What a test expects besides stands in the test. Tests alone call this crate.
#![tactic(auto)]

mod decoded;
mod faces;
mod orders;
mod pairs;
pub mod streams;
mod tables;

pub use decoded::{
    RING_DECODED, RING_ROWS, TETRAHEDRON_DECODED, TETRAHEDRON_ROWS, TORUS_DECODED, TORUS_EVENTS,
    TORUS_ROWS, TWIN_ROWS,
};
pub use faces::{BOOK, MIRRORED, RING, SQUARE, TETRAHEDRON, TORUS, TWICE, fan, grid, two_tori};
pub use orders::{SQUARE_ORDER, WorkedOrder, all_below, ordered};
pub use pairs::{TETRAHEDRON_PAIRS, TORUS_PAIRS};
pub use tables::{glued, has_entries};
