//! Numbers as decimal text: appended to a text, or, for long texts, written into a chunk that is appended
//! to a text whenever it is nearly full. The contract above it: what stands in the text, and in the chunk
//! up to its fill, is the text so far.
#![tactic(auto)]

mod chunks;
mod numbers;
mod texts;

pub use chunks::{CHUNK_BYTES, ROOM_BYTES, flushed, with_room};
pub use numbers::{put_signed, put_unsigned};
pub use texts::{append_number, append_spaced};
