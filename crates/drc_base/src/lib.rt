//! What every crate of the codec stands on: faults and their kinds, limits, sides of triangles,
//! byte sources and sinks that may fail. The contract above it: which bytes were taken and
//! appended, whether an end was reached, and that a failure is reported only where a count of
//! failures rose. The limits and the faults' words are this project's choice; the rules that give
//! the faults follow the Draco Bitstream Specification 2.2 and ASCII PLY 1.0.
#![tactic(auto)]

mod ends;
mod faults;
mod kinds;
mod limits;
mod mem_sink;
mod mem_source;
mod profiles;
mod reading;
mod sequences;
mod sides;
mod sinks;
mod sources;
mod std_sink;
mod std_source;
mod writing;

pub use ends::ReadEnd;
pub use faults::{Failed, Fault, Memory, Refusal};
pub use kinds::Kind;
pub use limits::{
    MAX_ATTRIBUTES, MAX_COMPONENTS, MAX_FACES, MAX_INPUT_BYTES, MAX_KD_POINTS, MAX_KD_VALUES,
    MAX_POINTS, MAX_TABLE_SYMBOLS, MAX_VALUES,
};
pub use mem_sink::MemSink;
pub use mem_source::MemSource;
pub use profiles::{PROFILE_THREE, PROFILE_TWO, Profile};
pub use reading::read_all;
pub use sequences::Sequence;
pub use sides::Side;
pub use sinks::Sink;
pub use sources::Source;
pub use std_sink::StdSink;
pub use std_source::StdSource;
pub use writing::write_all;
