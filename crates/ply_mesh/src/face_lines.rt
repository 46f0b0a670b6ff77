//! Lines of faces.

ghost use Rattle.std.specs.Prelude.{◌≡◌, ◌∷◌, [], Ok, ℕ, length, drop, IfSome};
ghost use Rattle.drc_base.specs.Refusals.{Answers};
ghost use Rattle.ply_text.specs.Tokens.{tokens_of};
ghost use Rattle.ply_mesh.specs.Body.{point_numbered, points_numbered, indices_of, counted_face, face_of, texts};

use crate::numbers::{number_at, number_of};
use attr_heads::Bounds;
use drc_base::{Fault, Kind, Refusal};
use ply_text::{first_tokens, is_at_end};
use std::alloc::Global;

/// The number of a point.
fn point_of(points: u32, value: i32) -> Option<u32>
    ensures { result ≡ point_numbered points value }
{
    if value < 0 || value as u32 >= points {
        return None;
    }
    Some(value as u32)
}

/// The numbers of three points.
fn points_of(points: u32, a: i32, b: i32, c: i32) -> Option<[u32; 3]>
    ensures { result ≡ points_numbered points (a ∷ b ∷ c ∷ []) }
{
    let a = point_of(points, a)?;
    let b = point_of(points, b)?;
    let c = point_of(points, c)?;
    Some([a, b, c])
}

/// The face of a line, read in place; None says nothing about the line.
#[tactic(auto, using(crate::proofs::FaceSteps::face_whole))]
fn face_in_place(list: (u8, u8), points: u32, line: &[u8]) -> Option<[u32; 3]>
    ensures { IfSome result (λ face. (at : ℕ) → face_of list points at (tokens_of line.now) ≡ Ok face) }
{
    let counts = Bounds::of_type(list.0);
    let indices = Bounds::of_type(list.1);
    let count = number_at(line, 0, counts)?;
    if count.0 != 3 {
        return None;
    }
    let a = number_at(line, count.1, indices)?;
    let b = number_at(line, a.1, indices)?;
    let c = number_at(line, b.1, indices)?;
    if !is_at_end(line, c.1) {
        return None;
    }
    // For the prover alone, who shows the clauses of what was found.
    match points_of(points, a.0, b.0, c.0) {
        None => None,
        Some(face) => Some(face),
    }
}

/// The points of a face, from the three tokens after its count.
#[tactic(auto, unfolding(crate::specs::Body::indices_of))]
fn indices_of(
    itype: u8,
    points: u32,
    at: u64,
    first: &[u8],
    second: &[u8],
    third: &[u8],
) -> Result<[u32; 3], Refusal>
    ensures { Answers (λ face. face) (indices_of itype points at (first.now ∷ second.now ∷ third.now ∷ [])) result }
{
    let bounds = Bounds::of_type(itype);
    let Some(a) = number_of(bounds, first) else {
        return Err(Refusal::Fault(Fault::new(Kind::PlyNumber, at)));
    };
    let Some(b) = number_of(bounds, second) else {
        return Err(Refusal::Fault(Fault::new(Kind::PlyNumber, at)));
    };
    let Some(c) = number_of(bounds, third) else {
        return Err(Refusal::Fault(Fault::new(Kind::PlyNumber, at)));
    };
    match points_of(points, a, b, c) {
        None => Err(Refusal::Fault(Fault::new(Kind::PlyIndex, at))),
        Some(face) => Ok(face),
    }
}

/// The points of a face, from the tokens after its count.
#[tactic(auto, using(crate::proofs::FaceSteps::not_three, crate::proofs::FaceSteps::three_texts))]
fn indices_by_tokens(itype: u8, points: u32, at: u64, found: &[&[u8]]) -> Result<[u32; 3], Refusal>
    ensures { Answers (λ face. face) (indices_of itype points at (texts found.now)) result }
{
    if found.len() != 3 {
        return Err(Refusal::Fault(Fault::new(Kind::PlyRow, at)));
    }
    indices_of(itype, points, at, found[0], found[1], found[2])
}

/// A face behind its count: PlyNumber where the count is no number of its type, PlyFace where it
/// isn't 3, then as its points.
fn counted_face(
    list: (u8, u8),
    points: u32,
    at: u64,
    count: &[u8],
    rest: &[&[u8]],
) -> Result<[u32; 3], Refusal>
    ensures { Answers (λ face. face) (counted_face list points at count.now (texts rest.now)) result }
{
    let Some(n) = number_of(Bounds::of_type(list.0), count) else {
        return Err(Refusal::Fault(Fault::new(Kind::PlyNumber, at)));
    };
    if n != 3 {
        return Err(Refusal::Fault(Fault::new(Kind::PlyFace, at)));
    }
    indices_by_tokens(list.1, points, at, rest)
}

/// The face of a line's tokens.
#[tactic(auto, using(crate::proofs::FaceSteps::no_face))]
fn face_by_tokens(
    list: (u8, u8),
    points: u32,
    at: u64,
    found: &[&[u8]],
) -> Result<[u32; 3], Refusal>
    ensures { Answers (λ face. face) (face_of list points at (texts found.now)) result }
{
    if found.len() == 0 {
        return Err(Refusal::Fault(Fault::new(Kind::PlyRow, at)));
    }
    counted_face(list, points, at, found[0], &found[1..])
}

/// The face of line number `at`: three numbers of points, each below `points`. In this order PlyRow
/// where no token stands there, PlyNumber where the first is no number of its type, PlyFace where it
/// isn't 3, PlyRow where another number of tokens than four stands there, PlyNumber where an index is
/// no number of its type, PlyIndex where it is no number of a point.
#[tactic(auto, using(crate::proofs::FaceSteps::face_few))]
pub(crate) fn read_face(
    alloc: Global,
    list: (u8, u8),
    points: u32,
    at: u64,
    line: &[u8],
) -> Result<[u32; 3], Refusal>
    ensures { Answers (λ face. face) (face_of list points at (tokens_of line.now)) result }
{
    if let Some(face) = face_in_place(list, points, line) {
        return Ok(face);
    }
    let found = first_tokens(alloc, line, 5)?;
    face_by_tokens(list, points, at, found.as_slice())
}
