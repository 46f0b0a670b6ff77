//! The header of a PLY text.

ghost use Rattle.std.specs.Prelude.{◌≡◌, ◌+◌, ◌-◌, ◌≤◌, ◌<◌, ◌^◌, ◌||◌, List, Err, length, map, IfOk, IsOk, MatchResult};
ghost use Rattle.drc_base.specs.declared.faults.Fault.{Fault as AnyFault};
ghost use Rattle.drc_base.specs.declared.faults.Refusal.TheVariants as refusal;
ghost use Rattle.drc_base.specs.Refusals.{Answers};
ghost use Rattle.ply_text.specs.Tokens.{tokens_of};
ghost use Rattle.attr_heads.specs.declared.heads.Head.{Head as HeadValue};
ghost use Rattle.ply_text.specs.declared.headers.Property.{Property as PropertyValue};
ghost use Rattle.ply_text.specs.DeclaredLines.{declared_from, declared_of_text_in, draft_with, is_detail};
ghost use Rattle.ply_text.specs.Draft.{draft_of};
ghost use Rattle.ply_text.specs.IsHeader.{IsDraft, IsHeader};
ghost use Rattle.ply_text.specs.Header.{is_end_by, ends_header, no_draft, header_from, header_of_in};

use crate::drafts::HeaderDraft;
use crate::header_ends::header_at;
use crate::headers::Header;
use crate::line_reader::Lines;
use crate::outlines::{Outline, is_detail};
use crate::statements::{is_magic, keyword_at};
use crate::words::Keyword;
use drc_base::{Fault, Kind, Profile, Refusal};
use std::alloc::Global;

fn is_end_by(word: Keyword) -> bool
    ensures { result ≡ is_end_by word }
{
    match word {
        Keyword::EndHeader => true,
        _ => false,
    }
}

/// Whether the line ends the header.
fn is_end(draft: &HeaderDraft, line: &[u8]) -> bool
    ensures { result ≡ ends_header (draft_of draft.now) (tokens_of line.now) }
{
    draft.formatted && is_end_by(keyword_at(line))
}

/// Whether the line ends what can be tested without memory: it ends the header, or says more of an attribute.
fn is_outline_end(profile: Profile, outline: &Outline, line: &[u8]) -> bool
    ensures { (heads : List HeadValue) (properties : List PropertyValue) →
        result ≡ (ends_header (draft_with outline.now heads properties) (tokens_of line.now) || is_detail profile.number (tokens_of line.now)) }
{
    outline.is_formatted() && is_end_by(keyword_at(line)) || is_detail(profile, line)
}

/// Tests the lines from line 2 on, up to one that ends the header or says more of an attribute, without memory.
fn test_lines(profile: Profile, lines: &mut Lines<'_>) -> Result<(), Fault>
    requires { length lines.old < 2 ^ 64 - 4 }
    ensures { MatchResult result (λ _. IsOk (declared_from profile.number 2 no_draft (map tokens_of lines.old))) (λ f. declared_from profile.number 2 no_draft (map tokens_of lines.old) ≡ Err f) }
{
    let mut outline = Outline::none();
    let mut at: u64 = 2;
    while let Some(line) = lines.next() {
        if is_outline_end(profile, &outline, line) {
            return Ok(());
        }
        outline.statement(profile, at, line)?;
        at += 1;
    }
    Err(Fault::new(Kind::PlyShort, at))
}

/// Tests the lines of a text, up to one that ends the header or says more of an attribute, without memory.
#[tactic(auto, unfolding(crate::specs::DeclaredLines::declared_of_text_in, crate::specs::Tokens::token_lines))]
fn test_declared(profile: Profile, bytes: &[u8]) -> Result<(), Fault>
    ensures { MatchResult result (λ _. IsOk (declared_of_text_in profile.number bytes.now)) (λ f. declared_of_text_in profile.number bytes.now ≡ Err f) }
{
    let mut lines = Lines::new(bytes);
    let Some(first) = lines.next() else {
        return Err(Fault::new(Kind::PlyShort, 1));
    };
    if !is_magic(first) {
        return Err(Fault::new(Kind::PlyMagic, 1));
    }
    test_lines(profile, &mut lines)
}

fn no_draft(alloc: Global) -> HeaderDraft
    ensures draft { draft_of result ≡ no_draft }
    ensures sound { IsDraft (draft_of result) }
{
    HeaderDraft {
        formatted: false,
        heads: Vec::new(alloc),
        vertices: None,
        properties: Vec::new(alloc),
        faces: None,
        list: None,
    }
}

/// The header from line 2 on.
fn header_from(alloc: Global, profile: Profile, lines: &mut Lines<'_>) -> Result<Header, Refusal>
    requires { length lines.old < 2 ^ 64 - 4 }
    ensures header { Answers (λ header. header) (header_from profile.number 2 no_draft (map tokens_of lines.old)) result }
    ensures sound { IfOk result IsHeader }
    ensures body { IfOk result (λ header. (2 < header.body_line) × (header.body_line ≤ length lines.old + 3)) }
{
    let mut draft = no_draft(alloc);
    let mut at: u64 = 2;
    while let Some(line) = lines.next() {
        if is_end(&draft, line) {
            return header_at(alloc, at, draft, line);
        }
        draft.statement(alloc, profile, at, line)?;
        at += 1;
    }
    Err(Refusal::Fault(Fault::new(Kind::PlyShort, at)))
}

/// The header of a PLY text, all of whose lines but those that need memory were tested.
#[tactic(auto, unfolding(crate::specs::Header::header_of_in, crate::specs::Tokens::token_lines))]
fn header_of(alloc: Global, profile: Profile, bytes: &[u8]) -> Result<Header, Refusal>
    ensures header { Answers (λ header. header) (header_of_in profile.number bytes.now) result }
    ensures sound { IfOk result IsHeader }
    ensures body { IfOk result (λ header. (2 < header.body_line) × (header.body_line ≤ length bytes.now + 4)) }
{
    let mut lines = Lines::new(bytes);
    let Some(first) = lines.next() else {
        return Err(Refusal::Fault(Fault::new(Kind::PlyShort, 1)));
    };
    if !is_magic(first) {
        return Err(Refusal::Fault(Fault::new(Kind::PlyMagic, 1)));
    }
    header_from(alloc, profile, &mut lines)
}

/// The header of a PLY text, or its first fault with its line: PlyMagic, PlyFormat, PlyHeader, PlyType,
/// PlyElement, PlyAttr, PlyShort, PointLimit, FaceLimit, AttrLimit and ValueLimit. Only the lines up to
/// `end_header` are read (PLY 1.0, in this project's profile); the line of a square is read where the profile has octahedral
/// attributes, and else says nothing. A fault of a line before `end_header` and before the first line that says more of an attribute
/// comes before out of memory.
#[tactic(auto, using(crate::proofs::OutlineSteps::declared_fault))]
pub fn read_header(alloc: Global, profile: Profile, bytes: &[u8]) -> Result<Header, Refusal>
    ensures header { Answers (λ header. header) (header_of_in profile.number bytes.now) result }
    ensures early { (f : AnyFault) → declared_of_text_in profile.number bytes.now ≡ Err f → result ≡ Err (refusal.Fault f) }
    // What holds of every header.
    ensures sound { IfOk result IsHeader }
    ensures body { IfOk result (λ header. (2 < header.body_line) × (header.body_line ≤ length bytes.now + 4)) }
{
    test_declared(profile, bytes)?;
    header_of(alloc, profile, bytes)
}
