//! The table of commands: each has its words, the options that it takes, and what it does by what these
//! choose. They take no memory.

ghost use Rattle.std.specs.Prelude.{◌≡◌, ◌∷◌, []};
ghost use Rattle.drc_app.specs.Commands.{command_word, command_row};
ghost use Rattle.drc_app.specs.Progress.{command_named, name_worded};

use crate::commands::Command;
use crate::help::HelpTopic;
use crate::options::{CODING_OPTIONS, LineChoice, LineOption, READING_OPTIONS, profile_of};

/// The first word of a command line.
#[derive(Clone, Copy, Debug, PartialEq, Eq)]
pub enum CommandWord {
    /// `enc`
    Enc,
    /// `dec`
    Dec,
    /// `info`
    Info,
    /// `gen`
    Gen,
    /// `recode`
    Recode,
    /// `verify`
    Verify,
    /// `kd`, which needs a second word
    Kd,
    /// `help`
    Help,
    /// `version`
    Version,
}

/// A command of the table, by its words.
#[derive(Clone, Copy, Debug, PartialEq, Eq)]
pub enum CommandName {
    /// `enc`
    Enc,
    /// `dec`
    Dec,
    /// `info`
    Info,
    /// `recode`
    Recode,
    /// `recode --restore`
    Restore,
    /// `verify`
    Verify,
    /// `verify --surface`
    VerifySurface,
    /// `kd enc`
    KdEnc,
    /// `kd dec`
    KdDec,
    /// `help`, and behind it the word of its topic, but of all commands
    Help(HelpTopic),
    /// `version`
    Version,
}

/// The first word of a command line that this word is.
pub fn command_named(word: &str) -> Option<CommandWord>
    ensures { result ≡ command_named word.now }
{
    match word {
        "enc" => Some(CommandWord::Enc),
        "dec" => Some(CommandWord::Dec),
        "info" => Some(CommandWord::Info),
        "gen" => Some(CommandWord::Gen),
        "recode" => Some(CommandWord::Recode),
        "verify" => Some(CommandWord::Verify),
        "kd" => Some(CommandWord::Kd),
        "help" => Some(CommandWord::Help),
        "version" => Some(CommandWord::Version),
        _ => None,
    }
}

/// The command of one word, where this first word is one.
pub fn named_alone(first: CommandWord) -> Option<CommandName>
    ensures { result ≡ name_worded (command_word first ∷ []) }
{
    match first {
        CommandWord::Enc => Some(CommandName::Enc),
        CommandWord::Dec => Some(CommandName::Dec),
        CommandWord::Info => Some(CommandName::Info),
        CommandWord::Gen => None,
        CommandWord::Recode => Some(CommandName::Recode),
        CommandWord::Verify => Some(CommandName::Verify),
        CommandWord::Kd => None,
        CommandWord::Help => Some(CommandName::Help(HelpTopic::All)),
        CommandWord::Version => Some(CommandName::Version),
    }
}

/// The command of two words, where these are one.
pub fn named_behind(first: CommandWord, second: &str) -> Option<CommandName>
    ensures { result ≡ name_worded (command_word first ∷ second.now ∷ []) }
{
    match first {
        CommandWord::Recode => match second {
            "--restore" => Some(CommandName::Restore),
            _ => None,
        },
        CommandWord::Verify => match second {
            "--surface" => Some(CommandName::VerifySurface),
            _ => None,
        },
        CommandWord::Kd => match second {
            "enc" => Some(CommandName::KdEnc),
            "dec" => Some(CommandName::KdDec),
            _ => None,
        },
        CommandWord::Help => match second {
            "enc" => Some(CommandName::Help(HelpTopic::Enc)),
            "dec" => Some(CommandName::Help(HelpTopic::Dec)),
            "info" => Some(CommandName::Help(HelpTopic::Info)),
            "gen" => Some(CommandName::Help(HelpTopic::Gen)),
            "recode" => Some(CommandName::Help(HelpTopic::Recode)),
            "verify" => Some(CommandName::Help(HelpTopic::Verify)),
            "kd" => Some(CommandName::Help(HelpTopic::Kd)),
            _ => None,
        },
        _ => None,
    }
}

/// The options that a command takes.
pub fn options_of(name: CommandName) -> &'static [LineOption]
    ensures { result.now ≡ (command_row name).takes }
{
    match name {
        CommandName::Enc => &CODING_OPTIONS,
        CommandName::Dec => &READING_OPTIONS,
        CommandName::Info => &READING_OPTIONS,
        CommandName::Recode => &CODING_OPTIONS,
        CommandName::Restore => &READING_OPTIONS,
        CommandName::Verify => &READING_OPTIONS,
        CommandName::VerifySurface => &READING_OPTIONS,
        CommandName::KdEnc => &[],
        CommandName::KdDec => &[],
        CommandName::Help(_) => &[],
        CommandName::Version => &[],
    }
}

/// The command of its words, by what its options choose.
pub fn command_chosen(name: CommandName, choice: LineChoice) -> Command
    ensures { result ≡ (command_row name).command choice }
{
    let profile = profile_of(choice);
    match name {
        CommandName::Enc => Command::Enc(choice.coding, profile),
        CommandName::Dec => Command::Dec(profile),
        CommandName::Info => Command::Info(profile),
        CommandName::Recode => Command::Recode(choice.coding, profile),
        CommandName::Restore => Command::Restore(profile),
        CommandName::Verify => Command::Verify(false, profile),
        CommandName::VerifySurface => Command::Verify(true, profile),
        CommandName::KdEnc => Command::KdEnc,
        CommandName::KdDec => Command::KdDec,
        CommandName::Help(topic) => Command::Help(topic),
        CommandName::Version => Command::Version,
    }
}
