//! Which commands the words of a line are, and which word is bad.

use crate::runs::words_of;
use drc_app::{Command, GenMesh, HelpTopic, command_of, no_choice};
use drc_base::{PROFILE_THREE, PROFILE_TWO};
use drc_container::{Choice, Predict, Prediction, Walk};
use drc_gen::GenKind;
use std::process::Abort;
use std::test::Fail;

/// The command of a generated mesh.
fn gen_of(kind: GenKind, size: u32, seed: u64) -> Command {
    Command::Gen(GenMesh { kind, size, seed })
}

/// A line is this command, or has its bad word here.
fn says(
    rt: &(impl Abort + AllocGlobal),
    line: &str,
    said: Result<Command, u64>,
) -> Result<(), Fail> {
    let words = words_of(rt.alloc(), line)?;
    assert_eq!(rt; command_of(&words), said);
    Ok(())
}

/// Lines of generated meshes, and the kind, the size and the seed.
static GENERATED: [(&str, GenKind, u32, u64); 5] = [
    ("gen grid 3 0", GenKind::Grid, 3, 0),
    ("gen torus 512 10", GenKind::Torus, 512, 10),
    ("gen holes 9 1", GenKind::Holes, 9, 1),
    ("gen fans 10 7", GenKind::Fans, 10, 7),
    (
        "gen seams 100 18446744073709551615",
        GenKind::Seams,
        100,
        u64::MAX,
    ),
];

#[test]
fn the_words_of_a_generated_mesh_are_exact(rt: HostRuntime) -> Result<(), Fail> {
    for (line, kind, size, seed) in GENERATED.iter() {
        says(&rt, line, Ok(gen_of(*kind, *size, *seed)))?;
    }
    Ok(())
}

/// Lines that are near those of generated meshes, and the number of the bad word.
static NOT_GENERATED: [(&str, u64); 15] = [
    ("gen", 1),
    ("gen cube", 1),
    ("gen Grid 3 0", 1),
    ("gen grid", 2),
    ("gen grid 2 0", 2),
    ("gen grid 513 0", 2),
    ("gen grid 03 0", 2),
    ("gen grid +3 0", 2),
    ("gen grid 3.0 0", 2),
    ("gen grid 3", 3),
    ("gen grid 3 01", 3),
    ("gen grid 3 -1", 3),
    ("gen grid 3 18446744073709551616", 3),
    ("gen grid 3 0 x", 4),
    ("grid 3 0", 0),
];

#[test]
fn other_words_generate_no_mesh(rt: HostRuntime) -> Result<(), Fail> {
    for (line, at) in NOT_GENERATED.iter() {
        says(&rt, line, Err(*at))?;
    }
    Ok(())
}

#[test]
fn options_stand_in_any_order(rt: HostRuntime) -> Result<(), Fail> {
    let choice = Choice {
        predict: Some(Predict::Plain(Prediction::Multi)),
        walk: Some(Walk::Degree),
        ..no_choice()
    };
    let enc = Ok(Command::Enc(choice, PROFILE_TWO));
    says(&rt, "enc --walk degree --predict multi", enc)?;
    let recode = Ok(Command::Recode(choice, PROFILE_TWO));
    says(&rt, "recode --predict multi --walk degree", recode)?;
    let recode = Ok(Command::Recode(no_choice(), PROFILE_TWO));
    says(&rt, "recode", recode)
}

#[test]
fn a_profile_stands_among_the_options(rt: HostRuntime) -> Result<(), Fail> {
    let choice = Choice {
        walk: Some(Walk::Degree),
        plain_values: true,
        ..no_choice()
    };
    let enc = Ok(Command::Enc(choice, PROFILE_THREE));
    says(&rt, "enc --profile 3 --walk degree --plain-values", enc)?;
    says(&rt, "enc --walk degree --profile 3 --plain-values", enc)?;
    says(&rt, "enc --walk degree --plain-values --profile 3", enc)?;
    let recode = Ok(Command::Recode(no_choice(), PROFILE_TWO));
    says(&rt, "recode --profile 2", recode)
}

/// Lines of commands that have no choice.
static COMMANDS: [(&str, Command); 17] = [
    ("dec", Command::Dec(PROFILE_TWO)),
    ("dec --profile 2", Command::Dec(PROFILE_TWO)),
    ("dec --profile 3", Command::Dec(PROFILE_THREE)),
    ("info", Command::Info(PROFILE_TWO)),
    ("info --profile 3", Command::Info(PROFILE_THREE)),
    ("recode --restore", Command::Restore(PROFILE_TWO)),
    (
        "recode --restore --profile 3",
        Command::Restore(PROFILE_THREE),
    ),
    ("verify", Command::Verify(false, PROFILE_TWO)),
    ("verify --profile 3", Command::Verify(false, PROFILE_THREE)),
    ("verify --surface", Command::Verify(true, PROFILE_TWO)),
    (
        "verify --surface --profile 3",
        Command::Verify(true, PROFILE_THREE),
    ),
    (
        "verify --surface --profile 2",
        Command::Verify(true, PROFILE_TWO),
    ),
    ("kd enc", Command::KdEnc),
    ("kd dec", Command::KdDec),
    ("help", Command::Help(HelpTopic::All)),
    ("help recode", Command::Help(HelpTopic::Recode)),
    ("version", Command::Version),
];

/// Lines with a word that is bad behind a command, and its number.
static BAD_WORDS: [(&str, u64); 40] = [
    ("recode --walk", 2),
    ("recode --walk depth --walk depth", 3),
    ("recode --index eb", 2),
    ("recode enc", 1),
    ("recode --restore --method", 2),
    ("recode --method seq --restore", 3),
    ("enc --restore", 1),
    ("verify x", 1),
    ("verify --surface x", 2),
    ("verify --surface --surface", 2),
    ("kd", 1),
    ("kd info", 1),
    ("kd kd", 1),
    ("kd enc x", 2),
    ("kd dec --method", 2),
    ("enc kd", 1),
    ("help foo", 1),
    ("help version", 1),
    ("help --walk", 1),
    ("help enc x", 2),
    ("version x", 1),
    ("dec --profile", 2),
    ("dec --profile 1", 2),
    ("dec --profile 4", 2),
    ("dec --profile 03", 2),
    ("dec --profile three", 2),
    ("dec --profile 3 --profile 3", 3),
    ("dec --profile 3 x", 3),
    ("dec 3", 1),
    ("dec --method eb", 1),
    ("info --profile 2 --profile 3", 3),
    ("enc --profile 2 --method eb --profile 2", 5),
    ("verify --profile 3 --surface", 3),
    ("recode --profile 3 --restore", 3),
    ("recode --restore --profile 3 --profile 3", 4),
    ("kd dec --profile 3", 2),
    ("gen --profile 3", 1),
    ("help --profile 3", 1),
    ("--help", 0),
    ("--version", 0),
];

#[test]
fn words_behind_a_command_belong_to_it(rt: HostRuntime) -> Result<(), Fail> {
    for (line, command) in COMMANDS.iter() {
        says(&rt, line, Ok(*command))?;
    }
    Ok(())
}

#[test]
fn bad_words_behind_a_command_are_named(rt: HostRuntime) -> Result<(), Fail> {
    for (line, at) in BAD_WORDS.iter() {
        says(&rt, line, Err(*at))?;
    }
    Ok(())
}
