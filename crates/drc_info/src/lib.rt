//! The report of a stream: where its parts stand and how many things they hold. The contract above it:
//! the report is exactly the text of what the stream means, or the stream's first fault. The lines are
//! this project's choice.
#![tactic(auto)]

mod lines;
mod reports;

pub use reports::report;
