//! The summary of a generated mesh.

ghost use Rattle.std.specs.Prelude.{◌≡◌, ◌++◌, ◌∷◌, [], None, codes, decimal, OnOk, IfOk};
ghost use Rattle.mesh_model.specs.declared.geometries.Geometry.TheVariants.{Mesh};
ghost use Rattle.drc_gen.specs.GeneratedLaws.{IsSize};
ghost use Rattle.drc_container.specs.choice.Refused.{refused};
ghost use Rattle.drc_container.specs.declared.choice.methods.Method.{Method as ByMethod};
ghost use Rattle.drc_app.specs.Summary.{count_line, asked_line, summary_text};
ghost use Rattle.drc_app.specs.Due.{by_method, length_due, summary_of, summary_due};

use crate::commands::GenMesh;
use crate::options::no_choice;
use crate::words::Worded;
use decimal_text::append_spaced;
use drc_base::{Memory, Refusal};
use drc_container::{Choice, Method, encode};
use drc_gen::generate;
use mesh_model::{CornerMesh, Geometry};
use std::alloc::Global;

/// What a summary says of a generated mesh.
#[derive(Clone, Copy, Debug, PartialEq, Eq)]
pub struct Summary {
    /// The mesh that was asked for.
    pub asked: GenMesh,
    /// How many faces it has.
    pub faces: u32,
    /// How many points it has.
    pub points: u32,
    /// How many bytes the sequential method gives.
    pub seq: u64,
    /// How many bytes Edgebreaker with standard symbols gives.
    pub eb: u64,
    /// How many bytes Edgebreaker with symbols by valence gives.
    pub valence: u64,
}

/// The summary of a generated mesh: what it was asked for by, how many faces and points it has, and how
/// many bytes each method gives with no other option. It fails only when out of memory.
#[tactic(auto, unfolding(crate::specs::Due::summary_due))]
pub fn summary_due(alloc: Global, asked: GenMesh) -> Result<Vec<u8>, Memory>
    requires { IsSize asked.size }
    ensures { IfOk result (λ text. (text.items, []) ≡ summary_due asked.kind asked.size asked.seed) }
{
    let made = generate(alloc, asked.kind, asked.size, asked.seed)?;
    let summary = summary_of(alloc, asked, made)?;
    summary_text(alloc, &summary)
}

/// What a summary says of a mesh that was asked for so, which no method refuses. The mesh is freed.
#[tactic(auto, unfolding(crate::specs::Due::summary_of))]
fn summary_of(alloc: Global, asked: GenMesh, made: CornerMesh) -> Result<Summary, Memory>
    requires { (by : ByMethod) → refused (Mesh made) (by_method by) ≡ None }
    ensures { IfOk result (λ s. s ≡ summary_of asked made) }
{
    let (faces, points) = (made.face_count(), made.point_count());
    let geometry = Geometry::Mesh(made);
    let seq = length_due(alloc, &geometry, Method::Seq)?;
    let eb = length_due(alloc, &geometry, Method::Eb)?;
    let valence = length_due(alloc, &geometry, Method::Valence)?;
    Ok(Summary {
        asked,
        faces,
        points,
        seq,
        eb,
        valence,
    })
}

/// How many bytes a geometry that isn't refused is encoded as by this method, with no other option.
#[tactic(auto, unfolding(crate::specs::Due::length_due))]
fn length_due(alloc: Global, geometry: &Geometry, method: Method) -> Result<u64, Memory>
    requires { refused geometry.now (by_method method) ≡ None }
    ensures { IfOk result (λ n. n ≡ length_due geometry.now method) }
{
    let choice = Choice {
        method: Some(method),
        ..no_choice()
    };
    match encode(alloc, geometry, &choice) {
        Ok((stream, _rows)) => Ok(stream.len() as u64),
        Err(Refusal::Memory) => Err(Memory),
        Err(Refusal::Fault(_)) => unreachable!(),
    }
}

/// The text of a summary.
#[tactic(auto, unfolding(crate::specs::Summary::summary_text))]
fn summary_text(alloc: Global, s: &Summary) -> Result<Vec<u8>, Memory>
    ensures { IfOk result (λ text. text.items ≡ summary_text s.now) }
{
    let mut out = Vec::new(alloc);
    put_asked(&mut out, s.asked)?;
    put_count(&mut out, "faces", s.faces as u64)?;
    put_count(&mut out, "points", s.points as u64)?;
    put_count(&mut out, Method::Seq.word(), s.seq)?;
    put_count(&mut out, Method::Eb.word(), s.eb)?;
    put_count(&mut out, Method::Valence.word(), s.valence)?;
    Ok(out)
}

/// Appends the line of the words that ask for a mesh.
fn put_asked(out: &mut Vec<u8>, asked: GenMesh) -> Result<(), Memory>
    ensures { OnOk result (out.new.items ≡ out.old.items ++ asked_line asked) }
{
    out.extend_from_slice(b"gen ")?;
    out.extend_from_slice(asked.kind.word().as_bytes())?;
    append_spaced(out, asked.size as u64)?;
    append_spaced(out, asked.seed)?;
    out.push(b'\n')?;
    Ok(())
}

/// Appends a line of a word and a number.
fn put_count(out: &mut Vec<u8>, word: &str, n: u64) -> Result<(), Memory>
    ensures { OnOk result (out.new.items ≡ out.old.items ++ count_line word.now n) }
{
    out.extend_from_slice(word.as_bytes())?;
    append_spaced(out, n)?;
    out.push(b'\n')?;
    Ok(())
}
