//! The command lines, read word by word.

ghost use Rattle.std.specs.Prelude.{◌≡◌, map, string_bytes, IfOk};
ghost use Rattle.drc_app.specs.Line.{IsSized};
ghost use Rattle.drc_app.specs.Progress.{first_argument, behind_command, with_option, after_word, whole_line, line_of};

use crate::command_table::{
    CommandName, CommandWord, command_chosen, command_named, named_alone, named_behind, options_of,
};
use crate::commands::{Command, GenMesh};
use crate::gen_words::{gen_named, number_named, size_named};
use crate::options::{
    LineChoice, ValueOption, goes_together, none_chosen, option_read, with_value,
};
use drc_gen::GenKind;

/// How far a command line has come.
#[derive(Clone, Copy, Debug, PartialEq, Eq)]
pub enum Progress {
    /// No word yet.
    Nothing,
    /// Its first word.
    Named(CommandWord),
    /// A command with whole options.
    Options(CommandName, LineChoice),
    /// A command with whole options and one whose value is due.
    Value(CommandName, LineChoice, ValueOption),
    /// `gen` with a kind, whose size is due.
    SizeDue(GenKind),
    /// `gen` with a kind and a size, whose seed is due.
    SeedDue(GenKind, u32),
    /// A line that takes no more words.
    Whole(Command),
}

/// The command of a line, or the number of its bad word: the least i such that the first i + 1 words
/// begin no command line, or the number of words where a word is missing. It takes no memory.
pub fn command_of(words: &[String]) -> Result<Command, u64>
    ensures line { result ≡ line_of (map string_bytes words.now) }
    ensures sized { IfOk result IsSized }
{
    let mut progress = Progress::Nothing;
    for (i, word) in words.iter().enumerate() {
        match after_word(progress, word.as_str()) {
            Some(next) => progress = next,
            None => return Err(i as u64),
        }
    }
    whole_line(words.len() as u64, progress)
}

/// The command of a whole line; else the number of its words.
fn whole_line(count: u64, progress: Progress) -> Result<Command, u64>
    ensures { result ≡ whole_line count progress }
{
    match progress {
        Progress::Named(first) => match named_alone(first) {
            Some(name) => Ok(command_chosen(name, none_chosen())),
            None => Err(count),
        },
        Progress::Options(name, choice) => {
            if goes_together(choice) {
                Ok(command_chosen(name, choice))
            } else {
                Err(count)
            }
        }
        Progress::Whole(command) => Ok(command),
        Progress::Nothing => Err(count),
        Progress::Value(_, _, _) => Err(count),
        Progress::SizeDue(_) => Err(count),
        Progress::SeedDue(_, _) => Err(count),
    }
}

/// The line with one word more, where such a line begins a command line.
fn after_word(progress: Progress, word: &str) -> Option<Progress>
    ensures { result ≡ after_word progress word.now }
{
    match progress {
        Progress::Nothing => Some(Progress::Named(command_named(word)?)),
        Progress::Named(first) => behind_command(first, word),
        Progress::Options(name, choice) => with_option(name, choice, word),
        Progress::Value(name, choice, option) => Some(Progress::Options(
            name,
            with_value(choice, option, word)?,
        )),
        Progress::SizeDue(kind) => Some(Progress::SeedDue(kind, size_named(word)?)),
        Progress::SeedDue(kind, size) => {
            let seed = number_named(word)?;
            Some(Progress::Whole(Command::Gen(GenMesh { kind, size, seed })))
        }
        Progress::Whole(_) => None,
    }
}

/// The line of this first word and this second one.
fn behind_command(first: CommandWord, word: &str) -> Option<Progress>
    ensures { result ≡ behind_command first word.now }
{
    match named_behind(first, word) {
        Some(name) => Some(Progress::Options(name, none_chosen())),
        None => first_argument(first, word),
    }
}

/// The line of a command of one word and the first of its options, or of `gen` and a kind.
fn first_argument(first: CommandWord, word: &str) -> Option<Progress>
    ensures { result ≡ first_argument first word.now }
{
    match first {
        CommandWord::Gen => Some(Progress::SizeDue(gen_named(word)?)),
        _ => with_option(named_alone(first)?, none_chosen(), word),
    }
}

/// The line with the option of this word more, where the command takes it and it wasn't given before. Its
/// value is due, where it takes one.
fn with_option(name: CommandName, choice: LineChoice, word: &str) -> Option<Progress>
    ensures { result ≡ with_option name choice word.now }
{
    match option_read(options_of(name), choice, word)? {
        (choice, None) => Some(Progress::Options(name, choice)),
        (choice, Some(option)) => Some(Progress::Value(name, choice, option)),
    }
}
