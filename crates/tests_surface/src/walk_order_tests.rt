//! Worked surfaces: the two orders of their classes. What is expected was computed by a slow program of its own,
//! with sets and recursion.

ghost use Rattle.std.specs.Prelude.{◌≡◌, ◌<◌};
ghost use Rattle.corner_table.specs.Labels.{IsLabelled};
ghost use Rattle.corner_table.specs.Table.{gluing_of};

use corner_table::{Classes, Order, SideTable, Steps};
use drc_base::MAX_FACES;
use std::alloc::Global;
use std::marker::Brand;
use std::process::Abort;
use std::sync::ledger::{Blank, Ledger};
use walk_order::{depth_first, prediction_degree};
use worked_surfaces::{TORUS_PAIRS, glued};

/// A surface by its pairs of sides, and of each order the numbers of the corners of the entries and the
/// entry of each corner.
struct Case {
    faces: u32,
    pairs: &'static [(u32, u32)],
    depth_first: (&'static [u32], &'static [u32]),
    prediction_degree: (&'static [u32], &'static [u32]),
}

/// Five faces, of which the two that the first leads to differ in the two orders.
const FIVE: Case = Case {
    faces: 5,
    pairs: &[(1, 6), (2, 3), (8, 9), (11, 4), (7, 12)],
    depth_first: (
        &[1, 2, 0, 6, 12, 9],
        &[2, 0, 1, 5, 0, 2, 3, 2, 1, 5, 2, 3, 4, 3, 1],
    ),
    prediction_degree: (
        &[1, 2, 0, 6, 9, 12],
        &[2, 0, 1, 4, 0, 2, 3, 2, 1, 4, 2, 3, 5, 3, 1],
    ),
};

/// A tetrahedron.
const TETRAHEDRON: Case = Case {
    faces: 4,
    pairs: &[(0, 8), (1, 5), (2, 10), (3, 7), (4, 11), (6, 9)],
    depth_first: (&[1, 2, 0, 5], &[2, 0, 1, 2, 1, 3, 1, 0, 3, 2, 3, 0]),
    prediction_degree: (&[1, 2, 0, 5], &[2, 0, 1, 2, 1, 3, 1, 0, 3, 2, 3, 0]),
};

/// Six faces round a vertex of a boundary.
const FAN: Case = Case {
    faces: 6,
    pairs: &[(1, 5), (4, 8), (7, 11), (10, 14), (13, 17)],
    depth_first: (
        &[1, 2, 0, 5, 8, 11, 14, 17],
        &[2, 0, 1, 2, 1, 3, 2, 3, 4, 2, 4, 5, 2, 5, 6, 2, 6, 7],
    ),
    prediction_degree: (
        &[1, 2, 0, 5, 8, 11, 14, 17],
        &[2, 0, 1, 2, 1, 3, 2, 3, 4, 2, 4, 5, 2, 5, 6, 2, 6, 7],
    ),
};

/// Two pairs of faces that touch at a point: two classes.
const CUT_VERTEX: Case = Case {
    faces: 4,
    pairs: &[(1, 5), (7, 11)],
    depth_first: (
        &[1, 2, 0, 5, 7, 8, 6, 11],
        &[2, 0, 1, 2, 1, 3, 6, 4, 5, 6, 5, 7],
    ),
    prediction_degree: (
        &[1, 2, 0, 5, 7, 8, 6, 11],
        &[2, 0, 1, 2, 1, 3, 6, 4, 5, 6, 5, 7],
    ),
};

/// No face.
const NOTHING: Case = Case {
    faces: 0,
    pairs: &[],
    depth_first: (&[], &[]),
    prediction_degree: (&[], &[]),
};

/// Two faces with no side glued.
const APART: Case = Case {
    faces: 2,
    pairs: &[],
    depth_first: (&[1, 2, 0, 4, 5, 3], &[2, 0, 1, 5, 3, 4]),
    prediction_degree: (&[1, 2, 0, 4, 5, 3], &[2, 0, 1, 5, 3, 4]),
};

/// A cube of twelve faces.
const CUBE: Case = Case {
    faces: 12,
    pairs: &[
        (0, 5),
        (1, 14),
        (2, 25),
        (3, 19),
        (4, 32),
        (6, 10),
        (7, 27),
        (8, 15),
        (9, 21),
        (11, 33),
        (12, 16),
        (13, 26),
        (17, 31),
        (18, 23),
        (20, 28),
        (22, 35),
        (24, 29),
        (30, 34),
    ],
    depth_first: (
        &[1, 2, 0, 14, 16, 31, 19, 10],
        &[
            2, 0, 1, 1, 0, 5, 3, 4, 6, 4, 7, 6, 2, 1, 3, 1, 4, 3, 0, 6, 5, 5, 6, 7, 2, 3, 0, 0, 3,
            6, 1, 5, 4, 5, 7, 4,
        ],
    ),
    prediction_degree: (
        &[1, 2, 0, 14, 29, 7, 31, 23],
        &[
            2, 0, 1, 1, 0, 6, 3, 5, 4, 5, 7, 4, 2, 1, 3, 1, 5, 3, 0, 4, 6, 6, 4, 7, 2, 3, 0, 0, 3,
            4, 1, 6, 5, 6, 7, 5,
        ],
    ),
};

/// A torus of seven points.
const TORUS: Case = Case {
    faces: 14,
    pairs: &TORUS_PAIRS,
    depth_first: (
        &[1, 2, 0, 23, 8, 31, 10],
        &[
            2, 0, 1, 0, 3, 6, 3, 1, 4, 1, 6, 5, 6, 4, 2, 4, 5, 0, 5, 2, 3, 2, 1, 3, 0, 6, 1, 3, 4,
            6, 1, 5, 4, 6, 2, 5, 4, 0, 2, 5, 3, 0,
        ],
    ),
    prediction_degree: (
        &[1, 2, 0, 23, 8, 31, 12],
        &[
            2, 0, 1, 0, 3, 6, 3, 1, 4, 1, 6, 5, 6, 4, 2, 4, 5, 0, 5, 2, 3, 2, 1, 3, 0, 6, 1, 3, 4,
            6, 1, 5, 4, 6, 2, 5, 4, 0, 2, 5, 3, 0,
        ],
    ),
};

/// A grid of three by three cells.
const GRID: Case = Case {
    faces: 18,
    pairs: &[
        (0, 10),
        (1, 5),
        (3, 20),
        (6, 16),
        (7, 11),
        (9, 26),
        (13, 17),
        (15, 32),
        (18, 28),
        (19, 23),
        (21, 38),
        (24, 34),
        (25, 29),
        (27, 44),
        (31, 35),
        (33, 50),
        (36, 46),
        (37, 41),
        (42, 52),
        (43, 47),
        (49, 53),
    ],
    depth_first: (
        &[1, 2, 0, 5, 20, 28, 25, 7, 16, 13, 32, 50, 53, 47, 36, 41],
        &[
            2, 0, 1, 2, 1, 3, 0, 7, 6, 0, 6, 1, 7, 9, 8, 7, 8, 6, 3, 1, 4, 3, 4, 14, 1, 6, 5, 1, 5,
            4, 6, 8, 10, 6, 10, 5, 14, 4, 13, 14, 13, 15, 4, 5, 12, 4, 12, 13, 5, 10, 11, 5, 11,
            12,
        ],
    ),
    prediction_degree: (
        &[1, 2, 0, 5, 20, 28, 25, 7, 16, 32, 50, 53, 47, 36, 41, 13],
        &[
            2, 0, 1, 2, 1, 3, 0, 7, 6, 0, 6, 1, 7, 15, 8, 7, 8, 6, 3, 1, 4, 3, 4, 13, 1, 6, 5, 1,
            5, 4, 6, 8, 9, 6, 9, 5, 13, 4, 12, 13, 12, 14, 4, 5, 11, 4, 11, 12, 5, 9, 10, 5, 10,
            11,
        ],
    ),
};

/// Whether an order has these corners of entries, and these entries of the corners, by their classes.
fn is_order(order: &Order, classes: &Classes, due: (&[u32], &[u32])) -> bool {
    let labels = classes.of_corner.as_slice();
    let entries = order.entry_of_class.as_slice();
    let alike = labels
        .iter()
        .zip(due.1)
        .all(|(k, e)| entries.get(*k as usize) == Some(e));
    order.corner_of_entry.as_slice() == due.0 && labels.len() == due.1.len() && alike
}

/// The order of depth first is the one that is due.
fn has_depth_first(
    rt: &impl Abort,
    alloc: Global,
    table: &SideTable,
    classes: &Classes,
    due: (&[u32], &[u32]),
)
    requires { IsLabelled table.now.faces (gluing_of table.now) classes.now.of_corner classes.now.count classes.now.ends }
{
    let order = depth_first(alloc, table, classes).expect(rt, "depth first");
    assert!(rt; is_order(&order, classes, due));
}

/// The order by prediction degree is the one that is due.
fn has_prediction_degree(
    rt: &impl Abort,
    alloc: Global,
    table: &SideTable,
    classes: &Classes,
    due: (&[u32], &[u32]),
)
    requires { IsLabelled table.now.faces (gluing_of table.now) classes.now.of_corner classes.now.count classes.now.ends }
{
    let order = prediction_degree(alloc, table, classes).expect(rt, "by prediction degree");
    assert!(rt; is_order(&order, classes, due));
}

/// Both orders of a surface are those that are due.
fn has_orders<L: Ledger>(rt: &impl Abort, alloc: Global, case: &Case, blank: Blank)
    requires name { blank.name ≡ L.name }
    requires parts { blank.parts ≡ L.parts }
    requires some { 0 < L.parts }
{
    let mut steps = Steps::<L>::new(blank);
    assert!(rt; case.faces <= MAX_FACES);
    let table = glued(alloc, case.faces, case.pairs).expect(rt, "a table");
    let classes = table.label_vertices(alloc, &mut steps).expect(rt, "labels");
    has_depth_first(rt, alloc, &table, &classes, case.depth_first);
    has_prediction_degree(rt, alloc, &table, &classes, case.prediction_degree);
}

/// Surfaces of at most six faces.
static SMALL: [&Case; 6] = [&FIVE, &TETRAHEDRON, &FAN, &CUT_VERTEX, &NOTHING, &APART];

/// Surfaces of twelve faces and more.
static LARGER: [&Case; 3] = [&CUBE, &TORUS, &GRID];

#[test]
fn small_surfaces(rt: HostRuntime) {
    let alloc = rt.alloc();
    for case in SMALL.iter() {
        has_orders::<Brand>(&rt, alloc, case, Blank::new(1));
    }
}

#[test]
fn larger_surfaces(rt: HostRuntime) {
    let alloc = rt.alloc();
    for case in LARGER.iter() {
        has_orders::<Brand>(&rt, alloc, case, Blank::new(1));
    }
}
