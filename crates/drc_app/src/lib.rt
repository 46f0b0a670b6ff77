//! The commands, over any source and sinks. The contract above it, on `run`: every call returns;
//! decoding, of streams and of kd-tree files, writes exactly what the bytes mean or names their first
//! fault; what encoding writes means what was read; `verify` says yes exactly where a stream means its
//! text by its map; each status and note has its cause, but for out of memory, before which faults of
//! what the input declares come. The command lines, statuses and notes are this project's choice.
#![tactic(auto)]

mod command_lines;
mod command_table;
mod commands;
mod delivery;
mod gen_words;
mod help;
mod kd_files;
mod laws;
mod map_inputs;
mod notes;
mod options;
mod outcomes;
mod restoring;
mod running;
mod summaries;
mod verifying;
mod words;

pub use command_lines::command_of;
pub use commands::{Command, GenMesh};
pub use delivery::out_of_memory;
pub use help::HelpTopic;
pub use laws::{generated_meshes_are_encoded, words_say_one_thing};
pub use options::no_choice;
pub use running::run;
