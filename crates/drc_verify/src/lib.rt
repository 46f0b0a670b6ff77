//! Whether a stream is a PLY text's geometry by the rows of a map, and if not, where it first differs.
//! The contract above it: the verdict is a function of the map, the geometry of the text and what the
//! stream means; it is `Same` exactly where the one is the other by the rows and, where surfaces are
//! asked for, the stream's glued pairs are those of the geometry under the new numbers. It uses the
//! code that reads; of what the encoder uses too, only with surfaces, how a mesh is paired and how
//! pairs are renumbered. What is checked is this project's choice.
#![tactic(auto)]

mod judging;
mod laws;
mod rows;
mod sides;
mod surfaces;
mod verdicts;
mod verifying;

pub use laws::{a_glued_yes_is_the_same, a_yes_is_the_same};
pub use verdicts::Verdict;
pub use verifying::{verify, verify_read};
