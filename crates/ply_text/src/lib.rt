//! ASCII PLY text in parts: its lines, the tokens of a line, its numbers and its header, for meshes
//! of triangles and for point clouds. The contract above it: what is read is a definition on the list
//! of lines and each line's list of tokens, with the first fault and its line. It follows PLY 1.0, in
//! the profile of docs/PLY.md.
#![tactic(auto)]

mod ahead;
mod bit_patterns;
mod blanks;
mod comments;
mod drafts;
mod header_ends;
mod header_reader;
mod headers;
mod in_place;
mod integers;
mod line_reader;
mod line_tokens;
mod name_runs;
mod named_heads;
mod outlines;
mod property_types;
mod statements;
mod token_reader;
mod words;

pub use ahead::{integer_ahead, natural_ahead};
pub use header_reader::read_header;
pub use headers::Header;
pub use in_place::{int_at, is_at_end};
pub use integers::{put_int, read_int};
pub use line_reader::Lines;
pub use line_tokens::first_tokens;
pub use property_types::type_word;
