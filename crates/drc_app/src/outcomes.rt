//! What a command line and its input come to, before anything is written.

ghost use Rattle.std.specs.Prelude.{◌≡◌, ◌≤◌, [], map, string_bytes, length, Err, IfOk, IsOkAnd, IsTrue};
ghost use Rattle.drc_base.specs.declared.faults.Fault.{Fault as AnyFault};
ghost use Rattle.drc_base.specs.declared.faults.Refusal.TheVariants as refusal;
ghost use Rattle.drc_base.specs.Profile.{profile_numbered};
ghost use Rattle.drc_base.specs.Refusals.{Answers};
ghost use Rattle.attr_heads.specs.ProfileHeads.{has_heads};
ghost use Rattle.mesh_model.specs.Contents.{heads_in};
ghost use Rattle.ply_text.specs.DeclaredLines.{declared_of_text_in};
ghost use Rattle.ply_mesh.specs.Read.{ply_read_in};
ghost use Rattle.drc_gen.specs.GeneratedLaws.{IsSize};
ghost use Rattle.drc_container.specs.reading.Stream.{meaning_in, declared_of};
ghost use Rattle.drc_app.specs.Line.{IsSized};
ghost use Rattle.drc_app.specs.Progress.{line_of};
ghost use Rattle.drc_app.specs.Ends.{takes};
ghost use Rattle.drc_app.specs.Due.{input_limit, reads, takes_memory, command_due, worked, coded_due, stream_due, recoded_due, text_due, report_due, summary_due};
ghost use Rattle.drc_app.specs.Early.{IsEarlyFault};
ghost use Rattle.drc_app.specs.Kept.{KeepsGeometry, IsCoded, IsReadAs};
ghost use Rattle.drc_app.specs.Outcome.{output_bytes, due_bytes, seen, MayAnswer, IsOutcome, IsOutcomeAt};

use crate::command_lines::command_of;
use crate::commands::{Command, GenMesh, reads};
use crate::help::{help_text, version_text};
use crate::kd_files::{kd_due, kd_text_due};
use crate::restoring::restored_due;
use crate::summaries::summary_due;
use crate::verifying::verified;
use drc_base::{Fault, Kind, MAX_INPUT_BYTES, Memory, Profile, ReadEnd, Refusal, Source, read_all};
use drc_container::{Choice, decode, encode};
use drc_info::report;
use drc_recode::decode_packed;
use drc_verify::Verdict;
use mesh_model::{Geometry, map_text};
use ply_mesh::{PlyText, read_ply};
use std::alloc::Global;

/// An output: it stands, or is made as it is written. Neither takes memory from there on.
#[derive(Debug, Drop)]
pub enum Output {
    /// These bytes.
    Bytes(Vec<u8>),
    /// The text of a geometry.
    Text(PlyText),
    /// A text of the program's own.
    Fixed(&'static str),
}

/// An output and its note.
#[derive(Debug, Drop)]
pub struct Due {
    /// The output.
    pub output: Output,
    /// The bytes of the note.
    pub note: Vec<u8>,
}

/// What a command gives.
#[derive(Debug, Drop)]
pub enum Answer {
    /// An output and its note.
    Due(Due),
    /// A verdict that isn't yes.
    Differs(Verdict),
}

/// What a command line and its input come to.
#[derive(Debug, Drop)]
pub enum Outcome {
    /// An output and a note are due.
    Done(Due),
    /// What was verified isn't the same.
    Differs(Verdict),
    /// The input has this fault.
    Refused(Fault),
    /// The word of this number begins no command line.
    BadWord(u64),
    /// The source failed.
    ReadFailed,
    /// Out of memory.
    NoMemory,
}

/// What the words and the input come to.
pub fn outcome_of<I: Source>(alloc: Global, words: &[String], input: &mut I) -> Outcome
    ensures outcome { IsOutcome (line_of (map string_bytes words.now)) (takes I.left I.given I.faults I.ended input.old input.new) result }
    ensures counts { I.faults input.old ≤ I.faults input.new }
{
    let command = match command_of(words) {
        Ok(command) => command,
        Err(index) => return Outcome::BadWord(index),
    };
    if !reads(command) {
        return outcome_at(alloc, command, Vec::new(alloc));
    }
    match read_all(alloc, input, MAX_INPUT_BYTES) {
        Ok(bytes) => outcome_at(alloc, command, bytes),
        Err(ReadEnd::Failed) => Outcome::ReadFailed,
        Err(ReadEnd::TooLong) => Outcome::Refused(input_limit()),
        Err(ReadEnd::Memory) => Outcome::NoMemory,
    }
}

/// The fault of an input with too many bytes.
fn input_limit() -> Fault
    ensures { result ≡ input_limit }
{
    Fault::new(Kind::InputLimit, MAX_INPUT_BYTES)
}

/// What the command comes to on all bytes of its input.
fn outcome_at(alloc: Global, command: Command, bytes: Vec<u8>) -> Outcome
    requires few { length bytes.items ≤ MAX_INPUT_BYTES }
    requires sized { IsSized command }
    ensures { IsOutcomeAt command bytes.items result }
{
    match work(alloc, command, bytes) {
        Ok(Answer::Due(due)) => Outcome::Done(due),
        Ok(Answer::Differs(verdict)) => Outcome::Differs(verdict),
        Err(Refusal::Fault(fault)) => Outcome::Refused(fault),
        Err(Refusal::Memory) => Outcome::NoMemory,
    }
}

/// What the command gives from these bytes, which are freed as soon as they are read.
fn work(alloc: Global, command: Command, bytes: Vec<u8>) -> Result<Answer, Refusal>
    requires { IsSized command }
    ensures answer { Answers seen (worked command bytes.items) result }
    ensures early { (f : AnyFault) → IsEarlyFault command bytes.items f → result ≡ Err (refusal.Fault f) }
    ensures memory { result ≡ Err refusal.Memory → IsTrue (takes_memory command) }
    ensures kept { IfOk result (λ a. KeepsGeometry command bytes.items (seen a)) }
    ensures differs { IfOk result (λ a. MayAnswer command a) }
{
    match command {
        Command::Enc(choice, profile) => {
            Ok(Answer::Due(stream_due(alloc, &choice, bytes, profile)?))
        }
        Command::Dec(profile) => Ok(Answer::Due(text_due(alloc, bytes, profile)?)),
        Command::Info(profile) => Ok(Answer::Due(report_due(alloc, &bytes, profile)?)),
        Command::Gen(asked) => Ok(Answer::Due(gen_due(alloc, asked)?)),
        Command::Recode(choice, profile) => {
            Ok(Answer::Due(recoded_due(alloc, &choice, bytes, profile)?))
        }
        Command::Restore(profile) => Ok(Answer::Due(restored_due(alloc, &bytes, profile)?)),
        Command::Verify(surface, profile) => verified(alloc, surface, bytes, profile),
        Command::KdEnc => Ok(Answer::Due(kd_due(alloc, bytes)?)),
        Command::KdDec => Ok(Answer::Due(kd_text_due(alloc, bytes)?)),
        Command::Help(topic) => Ok(Answer::Due(fixed_due(alloc, help_text(topic)))),
        Command::Version => Ok(Answer::Due(fixed_due(alloc, version_text()))),
    }
}

/// The stream of the geometry that a text means in a profile, coded as chosen, and the map of its faces or points.
fn stream_due(
    alloc: Global,
    choice: &Choice,
    text: Vec<u8>,
    profile: Profile,
) -> Result<Due, Refusal>
    ensures answer { Answers due_bytes (stream_due (profile_numbered profile.number) choice.now text.items) result }
    ensures early { (f : AnyFault) → declared_of_text_in profile.number text.items ≡ Err f → result ≡ Err (refusal.Fault f) }
    ensures kept { IfOk result (λ d. IsOkAnd (ply_read_in profile.number text.items) (IsCoded choice.now (output_bytes d.output) d.note.items)) }
{
    let geometry = text_read(alloc, text, profile)?;
    coded_due(alloc, choice, &geometry)
}

/// The stream of the geometry that a stream means in a profile, coded as chosen, and the map of its faces or points.
fn recoded_due(
    alloc: Global,
    choice: &Choice,
    stream: Vec<u8>,
    profile: Profile,
) -> Result<Due, Refusal>
    ensures answer { Answers due_bytes (recoded_due (profile_numbered profile.number) choice.now stream.items) result }
    ensures early { (f : AnyFault) → declared_of stream.items ≡ Err f → result ≡ Err (refusal.Fault f) }
    ensures kept { IfOk result (λ d. IsOkAnd (meaning_in (profile_numbered profile.number) stream.items) (IsCoded choice.now (output_bytes d.output) d.note.items)) }
{
    let geometry = stream_packed(alloc, stream, profile)?;
    coded_due(alloc, choice, &geometry)
}

/// The stream of a geometry, coded as chosen, and the map of its faces or points.
#[tactic(auto, unfolding(crate::specs::Due::coded_due))]
fn coded_due(alloc: Global, choice: &Choice, geometry: &Geometry) -> Result<Due, Refusal>
    ensures answer { Answers due_bytes (coded_due choice.now geometry.now) result }
    ensures kept { IfOk result (λ d. IsCoded choice.now (output_bytes d.output) d.note.items geometry.now) }
{
    let (output, rows) = encode(alloc, geometry, choice)?;
    let note = map_text(alloc, geometry, &rows)?;
    Ok(Due {
        output: Output::Bytes(output),
        note,
    })
}

/// The geometry that a text means in a profile. The text is freed.
pub fn text_read(alloc: Global, text: Vec<u8>, profile: Profile) -> Result<Geometry, Refusal>
    ensures answer { Answers (λ g. g) (ply_read_in profile.number text.items) result }
    ensures early { (f : AnyFault) → declared_of_text_in profile.number text.items ≡ Err f → result ≡ Err (refusal.Fault f) }
{
    read_ply(alloc, profile, &text)
}

/// The text of the geometry that a stream means in a profile, which is read as that geometry in it, and no note.
#[tactic(auto, unfolding(crate::specs::Due::text_due))]
fn text_due(alloc: Global, stream: Vec<u8>, profile: Profile) -> Result<Due, Refusal>
    ensures answer { Answers due_bytes (text_due (profile_numbered profile.number) stream.items) result }
    ensures early { (f : AnyFault) → declared_of stream.items ≡ Err f → result ≡ Err (refusal.Fault f) }
    ensures kept { IfOk result (λ d. IsOkAnd (meaning_in (profile_numbered profile.number) stream.items) (IsReadAs profile.number (output_bytes d.output))) }
{
    let geometry = stream_read(alloc, stream, profile)?;
    let text = PlyText::new(alloc, geometry)?;
    Ok(Due {
        output: Output::Text(text),
        note: Vec::new(alloc),
    })
}

/// The geometry that a stream means in a profile. The stream is freed.
fn stream_read(alloc: Global, stream: Vec<u8>, profile: Profile) -> Result<Geometry, Refusal>
    ensures answer { Answers (λ g. g) (meaning_in (profile_numbered profile.number) stream.items) result }
    ensures early { (f : AnyFault) → declared_of stream.items ≡ Err f → result ≡ Err (refusal.Fault f) }
    ensures heads { IfOk result (λ g. IsTrue (has_heads profile.number (heads_in g))) }
{
    decode(alloc, &stream, profile)
}

/// The geometry that a stream means in a profile, for encoding it again. The stream is freed.
fn stream_packed(alloc: Global, stream: Vec<u8>, profile: Profile) -> Result<Geometry, Refusal>
    ensures answer { Answers (λ g. g) (meaning_in (profile_numbered profile.number) stream.items) result }
    ensures early { (f : AnyFault) → declared_of stream.items ≡ Err f → result ≡ Err (refusal.Fault f) }
{
    decode_packed(alloc, &stream, profile)
}

/// The report on a stream in a profile, and no note.
#[tactic(auto, unfolding(crate::specs::Due::report_due))]
fn report_due(alloc: Global, stream: &[u8], profile: Profile) -> Result<Due, Refusal>
    ensures answer { Answers due_bytes (report_due (profile_numbered profile.number) stream.now) result }
    ensures early { (f : AnyFault) → declared_of stream.now ≡ Err f → result ≡ Err (refusal.Fault f) }
{
    let output = report(alloc, stream, profile)?;
    Ok(Due {
        output: Output::Bytes(output),
        note: Vec::new(alloc),
    })
}

/// The summary of a generated mesh, and no note.
fn gen_due(alloc: Global, asked: GenMesh) -> Result<Due, Memory>
    requires { IsSize asked.size }
    ensures { IfOk result (λ d. due_bytes d ≡ summary_due asked.kind asked.size asked.seed) }
{
    let output = summary_due(alloc, asked)?;
    Ok(Due {
        output: Output::Bytes(output),
        note: Vec::new(alloc),
    })
}

/// A text of the program's own, and no note. It takes no memory.
fn fixed_due(alloc: Global, text: &'static str) -> Due
    ensures { due_bytes result ≡ (text.now, []) }
{
    Due {
        output: Output::Fixed(text),
        note: Vec::new(alloc),
    }
}
