//! The last line of a header.

ghost use Rattle.std.specs.Prelude.{◌≡◌, ◌+◌, ◌*◌, ◌<◌, ◌^◌, ◌≤◌, ◌++◌, length, replicate, All, IsTrue, IsSome, IfSome, unwrap_or, OnOk, IfOk, vec_len};
ghost use Rattle.std.specs.List.{list_all};
ghost use Rattle.drc_base.specs.Refusals.{Answers};
ghost use Rattle.ply_text.specs.Tokens.{tokens_of};
ghost use Rattle.ply_text.specs.Draft.{draft_of};
ghost use Rattle.ply_text.specs.IsHeader.{HeadFits, IsDraft, IsHeader};
ghost use Rattle.ply_text.specs.Header.{column_types, is_head_typed, property_types, is_whole, agrees, header_by, ply_header_at};

use crate::drafts::HeaderDraft;
use crate::headers::{Header, Property};
use crate::named_heads::named_heads;
use crate::property_types::column_type;
use crate::statements::is_alone;
use crate::words::is_word;
use attr_heads::Head;
use drc_base::{
    Fault, Kind, MAX_ATTRIBUTES, MAX_FACES, MAX_POINTS, MAX_VALUES, Memory, Refusal, Sequence,
};
use std::alloc::Global;
use std::mem;

/// Appends a type for each component.
fn put_columns(out: &mut Vec<u8>, comps: u8, dtype: u8) -> Result<(), Memory>
    ensures { OnOk result (out.new.items ≡ out.old.items ++ replicate comps dtype) }
{
    for _ in 0..comps {
        out.push(dtype)?;
    }
    Ok(())
}

/// The types of the properties that the heads have.
#[tactic(auto, using(crate::proofs::Columns::more_columns, crate::proofs::Columns::all_columns))]
fn column_types(alloc: Global, heads: &[Head]) -> Result<Vec<u8>, Memory>
    ensures { IfOk result (λ types. types.items ≡ column_types heads.now) }
{
    let mut types = Vec::new(alloc);
    for i in 0..heads.len() {
        let head = &heads[i];
        put_columns(&mut types, head.comps, column_type(head.dtype))?;
    }
    Ok(types)
}

/// The types of the properties.
fn types_of(alloc: Global, properties: &[Property]) -> Result<Vec<u8>, Memory>
    ensures types { IfOk result (λ types. types.items ≡ property_types properties.now) }
    ensures len { IfOk result (λ types. length types.items ≡ length properties.now) }
{
    Ok(properties.iter().map(|p| p.dtype).collect(alloc)?)
}

#[tactic(auto, using(crate::proofs::Columns::each_typed))]
fn are_typed(heads: &[Head]) -> bool
    ensures typed { result ≡ list_all is_head_typed heads.now }
    ensures each { IsTrue result → All (λ h. IsTrue (is_head_typed h)) heads.now }
{
    for i in 0..heads.len() {
        if !heads[i].has_type() {
            return false;
        }
    }
    true
}

/// Whether each element that was declared has its properties.
#[tactic(auto, unfolding(crate::specs::Header::is_whole))]
fn is_whole(draft: &HeaderDraft) -> bool
    ensures whole { result ≡ is_whole (draft_of draft.now) }
    ensures properties { IsTrue result → 0 < vec_len draft.now.properties }
    ensures list { IsTrue result → IsSome draft.now.faces → IsSome draft.now.list }
{
    if draft.vertices.is_none() || draft.properties.len() == 0 {
        return false;
    }
    draft.faces.is_none() || draft.list.is_some()
}

/// A header of parts that fit.
#[tactic(auto, using(crate::proofs::HeadsPass::heads_pass))]
fn header_made(
    heads: Vec<Head>,
    vertices: u32,
    faces: Option<u32>,
    types: Vec<u8>,
    list: Option<(u8, u8)>,
    body_line: u64,
) -> Header
    requires some { 1 ≤ length heads.items }
    requires few { length heads.items ≤ 16 }
    requires heads { All HeadFits heads.items }
    requires typed { All (λ h. IsTrue (is_head_typed h)) heads.items }
    requires types { column_types heads.items ≡ types.items }
    requires vertices { vertices ≤ MAX_POINTS }
    requires values { vertices * length types.items ≤ MAX_VALUES }
    requires faces { IfSome faces (λ n. n ≤ MAX_FACES) }
    requires list { IsSome faces → IsSome list }
    ensures header { result ≡ record { heads = heads.items; vertices = vertices; faces = faces; types = types.items; list = list; body_line = body_line } }
    ensures sound { IsHeader result }
{
    Header {
        heads: Sequence::from_vec(heads),
        vertices,
        faces,
        types: Sequence::from_vec(types),
        list,
        body_line,
    }
}

/// The number of points, which is within its limit.
fn vertices_of(vertices: Option<u32>) -> u32
    requires { IfSome vertices (λ n. n ≤ MAX_POINTS) }
    ensures value { result ≡ unwrap_or vertices 0 }
    ensures few { result ≤ MAX_POINTS }
{
    match vertices {
        None => 0,
        Some(n) => n,
    }
}

/// The tests of the attributes, and the header.
#[tactic(auto, unfolding(crate::specs::Header::header_by, crate::specs::Header::agrees))]
fn header_by(
    alloc: Global,
    at: u64,
    draft: &HeaderDraft,
    heads: Vec<Head>,
) -> Result<Header, Refusal>
    requires room { at + 1 < 2 ^ 64 }
    requires sound { IsDraft (draft_of draft.now) }
    requires list { IsSome draft.now.faces → IsSome draft.now.list }
    requires heads { All HeadFits heads.items }
    requires some { 1 ≤ length heads.items }
    ensures header { Answers (λ header. header) (header_by at (draft_of draft.now) heads.items) result }
    ensures sound { IfOk result IsHeader }
    ensures body { IfOk result (λ header. header.body_line ≡ at + 1) }
{
    if heads.len() > MAX_ATTRIBUTES as usize {
        return Err(Refusal::Fault(Fault::new(Kind::AttrLimit, at)));
    }
    let types = types_of(alloc, &draft.properties)?;
    let columns = column_types(alloc, &heads)?;
    if !is_word(&columns, &types) || !are_typed(&heads) {
        return Err(Refusal::Fault(Fault::new(Kind::PlyAttr, at)));
    }
    let vertices = vertices_of(draft.vertices);
    if vertices as u128 * draft.properties.len() as u128 > MAX_VALUES as u128 {
        return Err(Refusal::Fault(Fault::new(Kind::ValueLimit, at)));
    }
    Ok(header_made(heads, vertices, draft.faces, types, draft.list, at + 1))
}

/// The header that ends at this line.
#[tactic(auto, unfolding(crate::specs::Header::ply_header_at, crate::specs::Header::heads_of, crate::specs::Header::header_by))]
pub(crate) fn header_at(
    alloc: Global,
    at: u64,
    mut draft: HeaderDraft,
    line: &[u8],
) -> Result<Header, Refusal>
    requires room { at + 1 < 2 ^ 64 }
    requires sound { IsDraft (draft_of draft) }
    ensures header { Answers (λ header. header) (ply_header_at at (draft_of draft) (tokens_of line.now)) result }
    ensures sound { IfOk result IsHeader }
    ensures body { IfOk result (λ header. header.body_line ≡ at + 1) }
{
    if !is_alone(line) {
        return Err(Refusal::Fault(Fault::new(Kind::PlyHeader, at)));
    }
    if !is_whole(&draft) {
        return Err(Refusal::Fault(Fault::new(Kind::PlyElement, at)));
    }
    if draft.heads.len() > 0 {
        let heads = mem::replace(&mut draft.heads, Vec::new(alloc));
        return header_by(alloc, at, &draft, heads);
    }
    match named_heads(alloc, &draft.properties)? {
        None => Err(Refusal::Fault(Fault::new(Kind::AttrLimit, at))),
        Some(heads) => header_by(alloc, at, &draft, heads),
    }
}
