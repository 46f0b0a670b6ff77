//! The C library: `libdrc`. The contract above it: the caller's arrays are exactly what the bytes mean, or
//! the status and the fault say why not; the bytes of arrays mean these arrays, and what is coded again
//! means the same; a yes is given exactly where a stream is the arrays by a map. No call has conditions
//! beyond its types, no call writes anything but what it is passed, and nothing is kept between calls. The
//! header include/drc.h has the same structs and calls for C and C++; this project's choice.
#![tactic(auto)]

mod arrays;
mod declaring;
mod decoding;
mod decoding_within;
mod early;
mod encoding;
mod faults;
mod handing;
mod heads;
mod informing;
mod inputs;
mod kinds;
mod laws;
mod limits;
mod names;
mod options;
mod profiles;
mod recoding;
mod restoring;
mod row_counts;
mod shapes;
mod statuses;
mod streams;
mod verdicts;
mod verifying;
mod written;
