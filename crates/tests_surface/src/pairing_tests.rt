//! Worked surfaces: which sides are glued, and how many vertices there are.

ghost use Rattle.std.specs.Prelude.{◌≡◌, ◌<◌};

use corner_table::{FREE, SideTable, Steps};
use drc_base::{Fault, Kind, Memory, Refusal};
use pairing::pair;
use std::alloc::Global;
use std::marker::Brand;
use std::process::Abort;
use std::sync::ledger::{Blank, Ledger};
use std::test::Fail;
use worked_meshes::mesh_at;
use worked_surfaces::{BOOK, MIRRORED, RING, TETRAHEDRON, TORUS, TWICE, has_entries};

/// How many vertices a table has.
fn vertices_by<L: Ledger>(alloc: Global, table: &SideTable, blank: Blank) -> Result<u32, Memory>
    requires name { blank.name ≡ L.name }
    requires parts { blank.parts ≡ L.parts }
    requires some { 0 < L.parts }
{
    let mut steps = Steps::<L>::new(blank);
    let classes = table.label_vertices(alloc, &mut steps)?;
    Ok(classes.count)
}

/// How many vertices a table has.
fn vertices_of(alloc: Global, table: &SideTable) -> Result<u32, Memory> {
    vertices_by::<Brand>(alloc, table, Blank::new(1))
}

/// A surface by the number of the position of each of its points, and its faces; and what is expected of it: for
/// each side the side across, and how many vertices there are.
struct Worked {
    positions: &'static [u8],
    faces: &'static [[u32; 3]],
    sides: &'static [u32],
    vertices: u32,
}

/// Surfaces with the tables that they have.
static WORKED: [Worked; 9] = [
    Worked {
        positions: &[0, 1, 2, 3],
        faces: &TETRAHEDRON,
        sides: &[8, 5, 10, 7, 11, 1, 9, 3, 0, 6, 2, 4],
        vertices: 4,
    },
    Worked {
        positions: &[0, 1, 2, 3, 4, 5, 6],
        faces: &TORUS,
        sides: &[
            25, 23, 36, 28, 26, 39, 31, 29, 21, 34, 32, 24, 37, 35, 27, 40, 38, 30, 22, 41, 33, 8,
            18, 1, 11, 0, 4, 14, 3, 7, 17, 6, 10, 20, 9, 13, 2, 12, 16, 5, 15, 19,
        ],
        vertices: 7,
    },
    Worked {
        positions: &[0, 1, 2, 3, 4, 5],
        faces: &RING,
        sides: &[
            4, 17, FREE, FREE, 0, 7, 10, 5, FREE, FREE, 6, 13, 16, 11, FREE, FREE, 12, 1,
        ],
        vertices: 6,
    },
    // Mirrored faces have one third position, and a face twice runs the same way.
    Worked {
        positions: &[0, 1, 2],
        faces: &MIRRORED,
        sides: &[FREE; 6],
        vertices: 6,
    },
    Worked {
        positions: &[0, 1, 2],
        faces: &TWICE,
        sides: &[FREE; 6],
        vertices: 6,
    },
    // Three faces on one edge: the third finds no free side.
    Worked {
        positions: &[0, 1, 2, 3, 4],
        faces: &BOOK,
        sides: &[FREE, FREE, 5, FREE, FREE, 2, FREE, FREE, FREE],
        vertices: 7,
    },
    // Three faces on one edge: the third takes the first, the least of the two that fit.
    Worked {
        positions: &[0, 1, 2, 3, 4],
        faces: &[[0, 1, 2], [0, 1, 3], [1, 0, 4]],
        sides: &[FREE, FREE, 8, FREE, FREE, FREE, FREE, FREE, 2],
        vertices: 7,
    },
    // Five faces on one edge: the third can't take the first, which has its third position.
    Worked {
        positions: &[0, 1, 2, 3, 4],
        faces: &[[0, 1, 2], [0, 1, 3], [1, 0, 2], [1, 0, 3], [1, 0, 4]],
        sides: &[
            FREE, FREE, 11, FREE, FREE, 8, FREE, FREE, 5, FREE, FREE, 2, FREE, FREE, FREE,
        ],
        vertices: 11,
    },
    // Two faces that share no point: positions alone count.
    Worked {
        positions: &[0, 1, 2, 2, 1, 5],
        faces: &[[0, 1, 2], [3, 4, 5]],
        sides: &[5, FREE, FREE, FREE, FREE, 0],
        vertices: 4,
    },
];

/// A surface has the sides glued, and so many vertices, as is expected.
fn is_glued(rt: &impl Abort, alloc: Global, worked: &Worked) -> Result<(), Refusal> {
    let table = pair(alloc, &mesh_at(alloc, worked.positions, worked.faces)?)?;
    assert!(rt; has_entries(&table, worked.sides));
    assert_eq!(rt; vertices_of(alloc, &table)?, worked.vertices);
    Ok(())
}

#[test]
fn glues_worked_surfaces(rt: HostRuntime) -> Result<(), Fail> {
    let alloc = rt.alloc();
    for worked in WORKED.iter() {
        is_glued(&rt, alloc, worked)?;
    }
    Ok(())
}

#[test]
fn refuses_one_position_at_two_points_of_a_face(rt: HostRuntime) -> Result<(), Fail> {
    let alloc = rt.alloc();
    // It is so at the second face.
    let twice = mesh_at(alloc, &[0, 1, 2, 1], &[[0, 1, 2], [2, 3, 1], [0, 0, 1]])?;
    assert!(&rt;
        matches!(
            pair(alloc, &twice),
            Err(Refusal::Fault(Fault {
                kind: Kind::Degenerate,
                at: 1
            }))
        )
    );
    Ok(())
}
