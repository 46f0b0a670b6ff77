//! What `gen` says of the meshes that it generates, and that each method keeps them.

use crate::runs::{UNREAD, leaves, run_line};
use drc_app::no_choice;
use drc_base::{PROFILE_TWO, Refusal, Sequence, Sink};
use drc_container::{Choice, Method, decode_whole, encode};
use drc_gen::{GenKind, LEAST_SIZE, MOST_SIZE, generate};
use mesh_model::{Geometry, Renumber, matches};
use std::alloc::Global;
use std::process::Abort;
use std::test::Fail;

/// What a stream means.
fn decoded_of(alloc: Global, stream: &[u8]) -> Result<Geometry, Refusal> {
    Ok(decode_whole(alloc, stream, PROFILE_TWO)?.geometry)
}

/// Rows without the last.
fn fewer_rows(rows: Renumber) -> Renumber {
    let mut fewer = rows.rows.into_vec();
    let _ = fewer.pop();
    Renumber {
        rows: Sequence::from_vec(fewer),
    }
}

/// Whether a geometry is a mesh by these rows, and whether it is by the rows without the last.
fn is_same(
    alloc: Global,
    mesh: &Geometry,
    decoded: &Geometry,
    rows: Renumber,
) -> Result<(bool, bool), Refusal> {
    let by_all = matches(alloc, mesh, decoded, &rows)?;
    let fewer = fewer_rows(rows);
    let by_fewer = matches(alloc, mesh, decoded, &fewer)?;
    Ok((by_all, by_fewer))
}

/// How many bytes a mesh is encoded as by a method. It asserts that they mean the mesh by exactly the
/// rows that are given.
fn length_kept(
    rt: &impl Abort,
    alloc: Global,
    mesh: &Geometry,
    method: Method,
) -> Result<usize, Refusal> {
    let choice = Choice {
        method: Some(method),
        ..no_choice()
    };
    let (stream, rows) = encode(alloc, mesh, &choice)?;
    let decoded = decoded_of(alloc, &stream)?;
    let (by_all, by_fewer) = is_same(alloc, mesh, &decoded, rows)?;
    assert!(rt; by_all);
    assert!(rt; !by_fewer);
    Ok(stream.len())
}

/// How many bytes a mesh is encoded as by each method: sequential, Edgebreaker, and with symbols by valence.
fn lengths_kept(
    rt: &impl Abort,
    alloc: Global,
    mesh: &Geometry,
) -> Result<(usize, usize, usize), Refusal> {
    let seq = length_kept(rt, alloc, mesh, Method::Seq)?;
    let eb = length_kept(rt, alloc, mesh, Method::Eb)?;
    let valence = length_kept(rt, alloc, mesh, Method::Valence)?;
    Ok((seq, eb, valence))
}

/// A line of a generated mesh, its kind, size and seed, and the lines of its counts.
type Generated = (&'static str, GenKind, u32, u64, &'static str);

/// Generated meshes whose summaries are looked at.
static SUMMARIES: [Generated; 6] = [
    ("gen grid 3 0", GenKind::Grid, 3, 0, "faces 18\npoints 16\n"),
    (
        "gen grid 8 1",
        GenKind::Grid,
        8,
        1,
        "faces 128\npoints 81\n",
    ),
    (
        "gen torus 8 1",
        GenKind::Torus,
        8,
        1,
        "faces 128\npoints 64\n",
    ),
    (
        "gen holes 8 1",
        GenKind::Holes,
        8,
        1,
        "faces 110\npoints 81\n",
    ),
    (
        "gen fans 8 1",
        GenKind::Fans,
        8,
        1,
        "faces 64\npoints 129\n",
    ),
    (
        "gen seams 8 1",
        GenKind::Seams,
        8,
        1,
        "faces 128\npoints 256\n",
    ),
];

/// How many bytes a generated mesh is encoded as by each method.
fn lengths_of(
    rt: &(impl Abort + AllocGlobal),
    kind: GenKind,
    size: u32,
    seed: u64,
) -> Result<(usize, usize, usize), Refusal> {
    assert!(rt; LEAST_SIZE <= size && size <= MOST_SIZE);
    let mesh = Geometry::Mesh(generate(rt.alloc(), kind, size, seed)?);
    lengths_kept(rt, rt.alloc(), &mesh)
}

/// The summary that a generated mesh is due.
fn summary_of(rt: &(impl Abort + AllocGlobal), mesh: &Generated) -> Result<String, Fail> {
    let (line, kind, size, seed, counts) = *mesh;
    let (seq, eb, valence) = lengths_of(rt, kind, size, seed)?;
    Ok(format!(in rt.alloc(); "{line}\n{counts}seq {seq}\neb {eb}\nvalence {valence}\n")?)
}

#[test]
fn the_summary_of_a_generated_mesh_tells_the_lengths_of_its_streams(
    rt: HostRuntime,
) -> Result<(), Fail> {
    for mesh in SUMMARIES.iter() {
        let due = summary_of(&rt, mesh)?;
        leaves(&rt, mesh.0, b"", UNREAD, (0, due.as_bytes(), b""))?;
    }
    Ok(())
}

#[test]
fn a_grid_of_half_a_million_faces_comes_back_by_each_method(rt: HostRuntime) -> Result<(), Fail> {
    let (seq, eb, valence) = lengths_of(&rt, GenKind::Grid, 512, 0)?;
    assert!(rt; eb < seq && valence < eb);
    Ok(())
}

#[test]
fn the_summary_of_a_grid_of_half_a_million_faces_tells_its_counts(
    rt: HostRuntime,
) -> Result<(), Fail> {
    let done = run_line(rt.alloc(), "gen grid 512 0", b"", UNREAD)?;
    assert_eq!(rt; done.status, 0);
    let counts = b"gen grid 512 0\nfaces 524288\npoints 263169\nseq ";
    assert!(rt; done.output.held().starts_with(counts));
    Ok(())
}
