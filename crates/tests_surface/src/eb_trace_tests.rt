//! Worked surfaces: what their walks note.

ghost use Rattle.corner_table.specs.Fans.{IsProper};
ghost use Rattle.corner_table.specs.Table.{gluing_of};

use corner_table::Symbol::{C, E, L, R, S};
use corner_table::{Event, SideTable, Symbol};
use drc_base::{Memory, Refusal};
use eb_trace::{Traced, trace};
use pairing::pair;
use std::alloc::Global;
use std::process::Abort;
use std::test::Fail;
use worked_meshes::mesh_of;
use worked_surfaces::{
    BOOK, MIRRORED, RING, RING_ROWS, TETRAHEDRON, TETRAHEDRON_ROWS, TORUS, TORUS_EVENTS,
    TORUS_ROWS, TWICE, TWIN_ROWS, grid, two_tori,
};

/// What a walk is to note.
struct Told {
    symbols: &'static [Symbol],
    events: &'static [Event],
    starts: &'static [bool],
    order: &'static [(u32, u8)],
    vertices: u32,
}

/// A surface by its faces and the number of their points, and what its walk is to note.
struct Worked {
    points: u8,
    faces: &'static [[u32; 3]],
    told: Told,
}

/// Compares what a walk noted.
fn has_noted(rt: &impl Abort, traced: &Traced, told: &Told) {
    assert!(rt; traced.symbols.as_slice() == told.symbols);
    assert!(rt; traced.events.as_slice() == told.events);
    assert!(rt; traced.starts.as_slice() == told.starts);
    assert!(rt; traced.order.as_slice() == told.order);
    assert!(rt; traced.vertices == told.vertices);
}

/// Walks over the surface of a table, and compares what is noted.
fn walks_table(rt: &impl Abort, alloc: Global, table: &SideTable, told: &Told) -> Result<(), Memory>
    requires { IsProper table.now.faces (gluing_of table.now) }
{
    let traced = trace(alloc, table)?;
    has_noted(rt, &traced, told);
    Ok(())
}

/// Walks over a surface, and compares what is noted.
fn walks(
    rt: &impl Abort,
    alloc: Global,
    points: u8,
    faces: &[[u32; 3]],
    told: &Told,
) -> Result<(), Refusal> {
    let table = pair(alloc, &mesh_of(alloc, points, faces)?)?;
    walks_table(rt, alloc, &table, told)?;
    Ok(())
}

/// Surfaces whose faces are listed.
static LISTED: [Worked; 6] = [
    Worked {
        points: 4,
        faces: &TETRAHEDRON,
        told: Told {
            symbols: &[C, R, E],
            events: &[],
            starts: &[true],
            order: &TETRAHEDRON_ROWS,
            vertices: 4,
        },
    },
    Worked {
        points: 7,
        faces: &TORUS,
        told: Told {
            symbols: &[C, C, C, C, R, S, S, L, R, S, L, E, E],
            events: &TORUS_EVENTS,
            starts: &[true],
            order: &TORUS_ROWS,
            vertices: 7,
        },
    },
    Worked {
        points: 6,
        faces: &RING,
        told: Told {
            symbols: &[S, L, R, L, R, E],
            events: &[Event {
                source: 5,
                split: 0,
                right: true,
            }],
            starts: &[false],
            order: &RING_ROWS,
            vertices: 6,
        },
    },
    // Two mirrored faces, which aren't joined.
    Worked {
        points: 3,
        faces: &MIRRORED,
        told: Told {
            symbols: &[E, E],
            events: &[],
            starts: &[false, false],
            order: &[(1, 0), (0, 0)],
            vertices: 6,
        },
    },
    // A face twice.
    Worked {
        points: 3,
        faces: &TWICE,
        told: Told {
            symbols: &[E, E],
            events: &[],
            starts: &[false, false],
            order: &[(1, 0), (0, 0)],
            vertices: 6,
        },
    },
    // The third face finds no free side.
    Worked {
        points: 5,
        faces: &BOOK,
        told: Told {
            symbols: &[R, E, E],
            events: &[],
            starts: &[false, false],
            order: &[(2, 0), (1, 2), (0, 0)],
            vertices: 7,
        },
    },
];

/// What is noted of a torus, and another one beside it.
static TWO_TORI: Told = Told {
    symbols: &[
        C, C, C, C, R, S, S, L, R, S, L, E, E, C, C, C, C, R, S, S, L, R, S, L, E, E,
    ],
    events: &[
        Event {
            source: 11,
            split: 6,
            right: false,
        },
        Event {
            source: 12,
            split: 5,
            right: true,
        },
        Event {
            source: 24,
            split: 19,
            right: false,
        },
        Event {
            source: 25,
            split: 18,
            right: true,
        },
    ],
    starts: &[true, true],
    order: &TWIN_ROWS,
    vertices: 14,
};

/// What is noted of a grid of five rows of five cells with four holes.
static FOUR_HOLES: Told = Told {
    symbols: &[
        S, L, R, S, R, L, R, S, E, R, L, R, S, R, L, R, R, L, R, S, R, L, R, S, E, R, L, R, S, R,
        L, E, L, R, S, S, R, E, L, E, R, E,
    ],
    events: &[
        Event {
            source: 31,
            split: 0,
            right: false,
        },
        Event {
            source: 37,
            split: 3,
            right: true,
        },
        Event {
            source: 39,
            split: 12,
            right: false,
        },
        Event {
            source: 41,
            split: 19,
            right: true,
        },
    ],
    starts: &[false],
    order: &[
        (29, 2),
        (28, 2),
        (22, 1),
        (23, 1),
        (12, 1),
        (13, 0),
        (20, 1),
        (21, 1),
        (18, 1),
        (19, 1),
        (1, 0),
        (10, 1),
        (11, 0),
        (16, 1),
        (17, 0),
        (26, 1),
        (27, 0),
        (33, 2),
        (32, 0),
        (35, 2),
        (34, 0),
        (37, 2),
        (36, 0),
        (39, 2),
        (38, 0),
        (41, 2),
        (40, 2),
        (31, 2),
        (30, 2),
        (25, 2),
        (24, 2),
        (15, 2),
        (14, 2),
        (8, 1),
        (9, 1),
        (6, 1),
        (7, 1),
        (4, 1),
        (5, 1),
        (2, 1),
        (3, 1),
        (0, 2),
    ],
    vertices: 36,
};

#[test]
fn walks_listed_surfaces(rt: HostRuntime) -> Result<(), Fail> {
    let alloc = rt.alloc();
    for worked in LISTED.iter() {
        walks(&rt, alloc, worked.points, worked.faces, &worked.told)?;
    }
    Ok(())
}

#[test]
fn walks_two_tori(rt: HostRuntime) -> Result<(), Fail> {
    let alloc = rt.alloc();
    let tori = two_tori(alloc)?;
    walks(&rt, alloc, 14, tori.as_slice(), &TWO_TORI)?;
    Ok(())
}

#[test]
fn walks_a_grid_with_four_holes(rt: HostRuntime) -> Result<(), Fail> {
    let alloc = rt.alloc();
    let holes = grid(alloc, (6, 6), (5, 5), &[(1, 1), (3, 1), (1, 3), (3, 3)])?;
    walks(&rt, alloc, 36, holes.as_slice(), &FOUR_HOLES)?;
    Ok(())
}
