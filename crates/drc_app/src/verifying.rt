//! Whether a stream is a text's geometry by the rows of a map.

ghost use Rattle.std.specs.Prelude.{◌≡◌, None, Some, Err, MatchOption, IfOk};
ghost use Rattle.drc_base.specs.declared.faults.Fault.{Fault as AnyFault};
ghost use Rattle.drc_base.specs.declared.faults.Refusal.TheVariants as refusal;
ghost use Rattle.drc_base.specs.Profile.{profile_numbered};
ghost use Rattle.drc_base.specs.Refusals.{Answers};
ghost use Rattle.mesh_model.specs.MapRead.{limited_head_at};
ghost use Rattle.drc_app.specs.Verified.{ply_line, text_and_stream, same_line, given_by, verified_input};
ghost use Rattle.drc_app.specs.Kept.{SaysWhetherSame};
ghost use Rattle.drc_app.specs.Outcome.{seen, MayAnswer};
ghost use Rattle.drc_app.specs.declared.commands.Command.TheVariants as Command;

use crate::map_inputs::behind_map;
use crate::outcomes::{Answer, Due, Output};
use decimal_text::append_number;
use drc_base::{Fault, Kind, Memory, Profile, Refusal};
use drc_verify::{Verdict, verify_read};
use mesh_model::{read_map, read_number};
use ply_mesh::read_ply;
use std::alloc::Global;

/// The text that a line `ply <n>` at the front counts, and the stream behind it.
#[tactic(auto, unfolding(crate::specs::Verified::ply_line, crate::specs::Verified::text_and_stream))]
fn text_and_stream(bytes: &[u8]) -> Option<(&[u8], &[u8])>
    ensures { MatchOption result (text_and_stream bytes.now ≡ None)
        (λ parts. text_and_stream bytes.now ≡ Some (parts.0.now, parts.1.now)) }
{
    if !bytes.starts_with(b"ply ") {
        return None;
    }
    let (count, end) = read_number(bytes, 4, b'\n')?;
    let rest = &bytes[end..];
    if rest.len() < count as usize {
        return None;
    }
    Some((&rest[..count as usize], &rest[count as usize..]))
}

/// The line of a yes.
fn same_line(alloc: Global, count: u64) -> Result<Vec<u8>, Memory>
    ensures { IfOk result (λ line. line.items ≡ same_line count) }
{
    let mut line = Vec::from_slice(alloc, b"same ")?;
    append_number(&mut line, count)?;
    line.extend_from_slice(b"\n")?;
    Ok(line)
}

/// What a verdict on so many rows gives.
fn given_by(alloc: Global, count: u64, verdict: Verdict) -> Result<Answer, Memory>
    ensures { IfOk result (λ a. seen a ≡ given_by count verdict) }
{
    match verdict {
        Verdict::Same => Ok(Answer::Due(Due {
            output: Output::Bytes(same_line(alloc, count)?),
            note: Vec::new(alloc),
        })),
        _ => Ok(Answer::Differs(verdict)),
    }
}

/// Whether the stream in an input, read in a profile, is the geometry of the text in it by the rows of the map in it, and with
/// `surface` whether it is glued as that: the line of a yes and no note, or the verdict.
#[tactic(auto, unfolding(crate::specs::Verified::parts_of, crate::specs::Verified::verified_input, drc_verify::specs::Checked::verdict_in))]
pub fn verified(
    alloc: Global,
    surface: bool,
    input: Vec<u8>,
    profile: Profile,
) -> Result<Answer, Refusal>
    ensures answer { Answers seen (verified_input (profile_numbered profile.number) surface input.items) result }
    ensures early { (f : AnyFault) → limited_head_at input.items ≡ Err f → result ≡ Err (refusal.Fault f) }
    ensures says { IfOk result (λ a. SaysWhetherSame (profile_numbered profile.number) surface input.items (seen a)) }
    ensures differs { IfOk result (λ a. MayAnswer (Command.Verify surface profile) a) }
{
    let map = read_map(alloc, &input)?;
    let count = map.rows.rows.len() as u64;
    let (text, stream) = match text_and_stream(behind_map(&map, &input)) {
        Some(parts) => parts,
        None => return Err(Refusal::Fault(Fault::new(Kind::MapForm, count + 2))),
    };
    let geometry = read_ply(alloc, profile, text)?;
    let stream = Vec::from_slice(alloc, stream)?;
    // The text is the largest part, and nothing needs it any more.
    drop(input);
    let verdict = verify_read(alloc, &map, &geometry, &stream, surface, profile)?;
    Ok(given_by(alloc, count, verdict)?)
}
