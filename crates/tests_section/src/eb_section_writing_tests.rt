//! Sections of worked surfaces, byte by byte.

ghost use Rattle.std.specs.Prelude.{◌<◌, ◌≤◌, ◌^◌, All, IfOk, length};
ghost use Rattle.corner_table.specs.Fans.{IsProper};
ghost use Rattle.corner_table.specs.Table.{gluing_of};

use corner_table::SideTable;
use drc_base::{MAX_ATTRIBUTES, MAX_FACES, MAX_POINTS, Memory, Refusal};
use eb_section::write_connectivity;
use eb_trace::trace;
use pairing::pair;
use std::alloc::Global;
use std::process::Abort;
use std::test::Fail;
use worked_meshes::mesh_of;
use worked_surfaces::{BOOK, MIRRORED, RING, SQUARE, TETRAHEDRON, TORUS, TWICE};

/// A surface by its faces and the number of their points, and the bytes that are to be written of it.
struct Worked {
    points: u8,
    faces: &'static [[u32; 3]],
    valence: bool,
    bytes: &'static [u8],
}

/// Writes the section of a table with these seam bits, and compares its bytes.
fn writes_table(
    rt: &impl Abort,
    alloc: Global,
    table: &SideTable,
    worked: &Worked,
    seams: &[Vec<bool>],
) -> Result<(), Memory>
    requires proper { IsProper table.now.faces (gluing_of table.now) }
    requires few { length seams.now ≤ MAX_ATTRIBUTES }
    requires short { All (λ v. length v.items < 2 ^ 31) seams.now }
{
    let traced = trace(alloc, table)?;
    let faces = table.face_count();
    assert!(rt; faces <= MAX_FACES);
    assert!(rt; traced.vertices <= MAX_POINTS);
    let mut bytes = Vec::new(alloc);
    write_connectivity(alloc, &mut bytes, &traced, faces, worked.valence, seams)?;
    assert!(rt; bytes.as_slice() == worked.bytes);
    Ok(())
}

/// Writes the section of a surface with these seam bits, and compares its bytes.
fn writes(
    rt: &impl Abort,
    alloc: Global,
    worked: &Worked,
    seams: &[Vec<bool>],
) -> Result<(), Refusal>
    requires few { length seams.now ≤ MAX_ATTRIBUTES }
    requires short { All (λ v. length v.items < 2 ^ 31) seams.now }
{
    let table = pair(alloc, &mesh_of(alloc, worked.points, worked.faces)?)?;
    writes_table(rt, alloc, &table, worked, seams)?;
    Ok(())
}

/// Surfaces without seams.
static SURFACES: [Worked; 9] = [
    // One face, and a tetrahedron.
    Worked {
        points: 3,
        faces: &[[0, 1, 2]],
        valence: false,
        bytes: &[0, 3, 1, 0, 1, 0, 0, 1, 7, 0xff, 1, 0x11],
    },
    Worked {
        points: 4,
        faces: &TETRAHEDRON,
        valence: false,
        bytes: &[0, 4, 4, 0, 3, 0, 0, 1, 0x2f, 1, 1, 0x10],
    },
    Worked {
        points: 4,
        faces: &TETRAHEDRON,
        valence: true,
        bytes: &[
            2, 4, 4, 0, 3, 0, 0, 1, 1, 0x10, 1, 0, 3, 7, 1, 0x40, 1, 0, 3, 1, 0, 2, 3, 1, 0x40, 1,
            0, 0, 0, 0, 0, 0,
        ],
    },
    // A torus and a ring with a hole: both have split events.
    Worked {
        points: 7,
        faces: &TORUS,
        valence: false,
        bytes: &[
            0, 7, 14, 0, 13, 3, 2, 11, 5, 1, 7, 2, 4, 0xff, 0xd2, 0x25, 5, 1, 1, 0x10,
        ],
    },
    Worked {
        points: 7,
        faces: &TORUS,
        valence: true,
        bytes: &[
            2, 7, 14, 0, 13, 3, 2, 11, 5, 1, 7, 2, 1, 1, 0x10, 4, 0, 4, 3, 1, 0x20, 1, 0x10, 1,
            0x10, 3, 0, 0xa0, 0x90, 0x4b, 2, 0, 3, 3, 1, 0x20, 1, 0x20, 3, 0, 0xd0, 0x80, 7, 1, 0,
            3, 7, 1, 0x40, 1, 0, 2, 1, 0, 3, 7, 1, 0x40, 1, 0, 3, 4, 1, 1, 1, 1, 0x40, 1, 0, 0,
        ],
    },
    Worked {
        points: 6,
        faces: &RING,
        valence: false,
        bytes: &[
            0, 6, 6, 0, 6, 1, 1, 5, 5, 1, 3, 0xef, 0xba, 0, 0xff, 1, 0x11,
        ],
    },
    // Two mirrored faces, one face twice, and three faces on one edge: each is a part of its own.
    Worked {
        points: 3,
        faces: &MIRRORED,
        valence: false,
        bytes: &[0, 6, 2, 0, 2, 0, 0, 1, 0x3f, 0xff, 1, 0x22],
    },
    Worked {
        points: 3,
        faces: &TWICE,
        valence: false,
        bytes: &[0, 6, 2, 0, 2, 0, 0, 1, 0x3f, 0xff, 1, 0x22],
    },
    Worked {
        points: 5,
        faces: &BOOK,
        valence: false,
        bytes: &[0, 7, 3, 0, 3, 0, 0, 2, 0x7f, 1, 0xff, 1, 0x22],
    },
];

#[test]
fn writes_worked_surfaces(rt: HostRuntime) -> Result<(), Fail> {
    let alloc = rt.alloc();
    for worked in SURFACES.iter() {
        writes(&rt, alloc, worked, &[])?;
    }
    Ok(())
}

/// A list of one bit.
fn one_seam(alloc: Global) -> Result<Vec<bool>, Memory>
    ensures { IfOk result (λ v. length v.items < 2 ^ 31) }
{
    let mut bits = Vec::new(alloc);
    bits.push(true)?;
    Ok(bits)
}

/// Two faces with a seam between them. Under valence the seams come before the symbols, of which the L has a context
/// and the E none.
static SEAMS: [Worked; 2] = [
    Worked {
        points: 4,
        faces: &SQUARE,
        valence: false,
        bytes: &[0, 4, 2, 1, 2, 0, 0, 1, 0x1f, 0xff, 1, 0x11, 1, 1, 0x10],
    },
    Worked {
        points: 4,
        faces: &SQUARE,
        valence: true,
        bytes: &[
            2, 4, 2, 1, 2, 0, 0, 0xff, 1, 0x11, 1, 1, 0x10, 1, 0, 3, 7, 1, 0x40, 1, 0, 2, 0, 0, 0,
            0, 0,
        ],
    },
];

#[test]
fn writes_seams(rt: HostRuntime) -> Result<(), Fail> {
    let alloc = rt.alloc();
    let seams = [one_seam(alloc)?];
    for worked in SEAMS.iter() {
        writes(&rt, alloc, worked, &seams)?;
    }
    Ok(())
}
