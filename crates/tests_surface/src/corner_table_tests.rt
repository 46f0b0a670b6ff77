//! Worked surfaces: their vertices and their boundaries.

ghost use Rattle.std.specs.Prelude.{◌≡◌, ◌≤◌, ◌<◌};
ghost use Rattle.drc_base.specs.declared.limits.TheConstants.{MAX_FACES as most_faces};
ghost use Rattle.corner_table.specs.Table.{room_of, side_of, IsFreeIn};

use corner_table::{Classes, LinkedTable, SideTable, Steps};
use drc_base::{MAX_FACES, Side};
use std::alloc::Global;
use std::marker::Brand;
use std::process::Abort;
use std::sync::ledger::{Blank, Ledger};

/// The side with a number.
fn numbered(number: u32) -> Side {
    Side {
        face: number / 3,
        k: (number % 3) as u8,
    }
}

/// The number of a side, or -1 for none.
fn number_of(side: Option<Side>) -> i64 {
    match side {
        Some(s) => 3 * i64::from(s.face) + i64::from(s.k),
        None => -1,
    }
}

/// Adds all faces that there is room for.
fn add_faces<L: Ledger>(table: &mut LinkedTable<L>, faces: u32, steps: &mut Steps<L>)
    requires none { table.old.faces ≡ 0 }
    requires room { room_of table.old ≡ faces }
    ensures { table.new.faces ≡ faces }
{
    for _ in 0..faces {
        let _ = table.add_face(steps);
    }
}

/// Glues two sides, which have to be free sides of two faces.
fn glue_pair<L: Ledger>(
    rt: &impl Abort,
    table: &mut LinkedTable<L>,
    pair: (u32, u32),
    steps: &mut Steps<L>,
)
    ensures { table.new.faces ≡ table.old.faces }
{
    let (a, b) = (numbered(pair.0), numbered(pair.1));
    assert!(rt; a.face < table.face_count() && b.face < table.face_count() && a.face != b.face);
    match (table.other(a, steps), table.other(b, steps)) {
        (None, None) => table.glue(a, b, steps),
        _ => assert!(rt; false, "a side is glued already"),
    }
}

/// The free side that follows a free one, before which that one comes.
fn next_of<L: Ledger>(
    rt: &impl Abort,
    table: &LinkedTable<L>,
    s: Side,
    steps: &mut Steps<L>,
) -> Side
    requires { IsFreeIn table.now (side_of s) }
{
    let next = table.next_open(s, steps);
    assert!(rt; table.prev_open(next, steps) == s);
    next
}

/// The number of the side that follows one round the boundary, or -1 where that one isn't free.
fn follower<L: Ledger>(
    rt: &impl Abort,
    table: &LinkedTable<L>,
    s: Side,
    steps: &mut Steps<L>,
) -> i64 {
    assert!(rt; s.face < table.face_count());
    match table.other(s, steps) {
        Some(_) => -1,
        None => number_of(Some(next_of(rt, table, s, steps))),
    }
}

/// The same surface, made of the list of its pairs.
fn made_again<L: Ledger>(
    rt: &impl Abort,
    alloc: Global,
    table: &SideTable,
    steps: &mut Steps<L>,
) -> SideTable {
    let faces = table.face_count();
    let entries = table.across(steps);
    assert!(rt; entries.len() == 3 * faces as usize);
    let again = SideTable::with_pairs(faces, entries.to_vec(alloc).expect(rt, "pairs"));
    assert!(rt; again.face_count() == faces && again.across(steps) == entries);
    again
}

/// The numbers of the sides that follow those that are asked for, or -1 where one isn't free.
fn followers<L: Ledger>(
    rt: &impl Abort,
    alloc: Global,
    table: &LinkedTable<L>,
    asked: &[u32],
    steps: &mut Steps<L>,
) -> Vec<i64> {
    let mut follows = Vec::new(alloc);
    for side in asked {
        let next = follower(rt, table, numbered(*side), steps);
        follows.push(next).expect(rt, "an answer");
    }
    follows
}

/// So many faces with these pairs of sides glued.
fn linked<L: Ledger>(
    rt: &impl Abort,
    alloc: Global,
    faces: u32,
    pairs: &[(u32, u32)],
    steps: &mut Steps<L>,
) -> LinkedTable<L>
    requires few { faces ≤ most_faces }
{
    let mut table = LinkedTable::<L>::with_room(alloc, faces).expect(rt, "room");
    add_faces(&mut table, faces, steps);
    for pair in pairs {
        glue_pair(rt, &mut table, *pair, steps);
    }
    table
}

/// The vertices, and what follows each side that is asked for, or -1 where it isn't free.
fn told<L: Ledger>(
    rt: &impl Abort,
    alloc: Global,
    faces: u32,
    pairs: &[(u32, u32)],
    asked: &[u32],
    blank: Blank,
) -> (Classes, Vec<i64>)
    requires few { faces ≤ most_faces }
    requires name { blank.name ≡ L.name }
    requires parts { blank.parts ≡ L.parts }
    requires some { 0 < L.parts }
{
    let mut steps = Steps::<L>::new(blank);
    let table = linked(rt, alloc, faces, pairs, &mut steps);
    let follows = followers(rt, alloc, &table, asked, &mut steps);
    let again = made_again(rt, alloc, &table.into_sides(), &mut steps);
    let classes = again.label_vertices(alloc, &mut steps).expect(rt, "labels");
    (classes, follows)
}

/// A surface by its pairs of sides, and sides of it; and what is expected: how many vertices it has, the vertex of
/// each corner, of each vertex whether it ends, and what follows each of the sides, or -1 where it isn't free.
struct Worked {
    faces: u32,
    pairs: &'static [(u32, u32)],
    asked: &'static [u32],
    count: u32,
    of_corner: &'static [u32],
    ends: &'static [bool],
    follows: &'static [i64],
}

/// Compares the vertices of a surface with those expected.
fn has_vertices(rt: &impl Abort, classes: &Classes, worked: &Worked) {
    assert_eq!(rt; classes.count, worked.count);
    assert!(rt; classes.of_corner.as_slice() == worked.of_corner);
    assert!(rt; classes.ends.as_slice() == worked.ends);
}

/// Compares the vertices of a surface and what follows its sides with those expected.
fn is_told(rt: &impl Abort, alloc: Global, worked: &Worked) {
    assert!(rt; worked.faces <= MAX_FACES);
    let (classes, follows) = told::<Brand>(
        rt,
        alloc,
        worked.faces,
        worked.pairs,
        worked.asked,
        Blank::new(1),
    );
    has_vertices(rt, &classes, worked);
    assert!(rt; follows.as_slice() == worked.follows);
}

/// Surfaces that are closed, have one hole, are apart, or are glued until a side is alone in its loop.
static SURFACES: [Worked; 6] = [
    // A tetrahedron.
    Worked {
        faces: 4,
        pairs: &[(0, 5), (1, 10), (2, 8), (3, 7), (4, 11), (6, 9)],
        asked: &[0],
        count: 4,
        of_corner: &[0, 1, 2, 2, 1, 3, 1, 0, 3, 2, 3, 0],
        ends: &[false; 4],
        follows: &[-1],
    },
    // A torus.
    Worked {
        faces: 14,
        pairs: &[
            (0, 11),
            (1, 23),
            (2, 35),
            (3, 7),
            (4, 38),
            (5, 20),
            (6, 10),
            (8, 29),
            (9, 14),
            (12, 16),
            (13, 40),
            (15, 19),
            (17, 32),
            (18, 22),
            (21, 26),
            (24, 28),
            (25, 41),
            (27, 31),
            (30, 34),
            (33, 37),
            (36, 39),
        ],
        asked: &[0],
        count: 7,
        of_corner: &[
            0, 1, 2, 0, 3, 4, 3, 2, 4, 2, 1, 4, 4, 1, 5, 1, 3, 5, 3, 0, 5, 0, 2, 5, 5, 2, 6, 2, 3,
            6, 3, 1, 6, 1, 0, 6, 0, 4, 6, 5, 6, 4,
        ],
        ends: &[false; 7],
        follows: &[-1],
    },
    // A ring with a hole.
    Worked {
        faces: 6,
        pairs: &[(0, 5), (1, 17), (3, 7), (6, 11), (9, 13), (12, 16)],
        asked: &[2, 4, 8, 10, 14, 15],
        count: 6,
        of_corner: &[0, 1, 2, 2, 1, 3, 1, 4, 3, 3, 4, 5, 4, 0, 5, 0, 2, 5],
        ends: &[true; 6],
        follows: &[8, 15, 14, 4, 2, 10],
    },
    // Two mirrored faces are never joined: each is its own loop of three.
    Worked {
        faces: 2,
        pairs: &[],
        asked: &[0, 1, 2, 5],
        count: 6,
        of_corner: &[0, 1, 2, 3, 4, 5],
        ends: &[true; 6],
        follows: &[1, 2, 0, 3],
    },
    // Three faces glued until one side is left, which is alone in its loop.
    Worked {
        faces: 3,
        pairs: &[(4, 0), (5, 2), (7, 3), (8, 1)],
        asked: &[6, 0],
        count: 3,
        of_corner: &[0, 1, 2, 1, 0, 2, 0, 2, 2],
        ends: &[false, false, true],
        follows: &[6, -1],
    },
    // Gluing it to a side of another face joins what comes before that side to what follows it.
    Worked {
        faces: 4,
        pairs: &[(4, 0), (5, 2), (7, 3), (8, 1), (10, 6)],
        asked: &[9, 11],
        count: 4,
        of_corner: &[0, 1, 2, 1, 0, 2, 0, 2, 2, 2, 3, 2],
        ends: &[false, false, true, true],
        follows: &[11, 9],
    },
];

/// Surfaces with a larger hole, and with more than two faces at an edge or several parts at a vertex.
static HOLES_AND_CUTS: [Worked; 3] = [
    // Twelve faces round a hole of six sides: two faces for each of them, the second one at the hole.
    Worked {
        faces: 12,
        pairs: &[
            (1, 5),
            (3, 8),
            (7, 11),
            (9, 14),
            (13, 17),
            (15, 20),
            (19, 23),
            (21, 26),
            (25, 29),
            (27, 32),
            (31, 35),
            (33, 2),
        ],
        asked: &[4, 10, 16, 22, 28, 34, 0, 6, 30],
        count: 12,
        of_corner: &[
            0, 1, 2, 0, 2, 3, 3, 2, 4, 3, 4, 5, 5, 4, 6, 5, 6, 7, 7, 6, 8, 7, 8, 9, 9, 8, 10, 9,
            10, 11, 11, 10, 1, 11, 1, 0,
        ],
        ends: &[true; 12],
        follows: &[34, 4, 10, 16, 22, 28, 6, 12, 0],
    },
    // Three faces on one edge: two of them are glued there, and the third is a part of its own.
    Worked {
        faces: 3,
        pairs: &[(3, 8)],
        asked: &[0, 4, 5, 6, 7, 8],
        count: 7,
        of_corner: &[0, 1, 2, 3, 4, 5, 5, 4, 6],
        ends: &[true; 7],
        follows: &[1, 5, 6, 7, 4, -1],
    },
    // A cut vertex: eight faces in one part, and three fans of them have the point 0.
    Worked {
        faces: 8,
        pairs: &[
            (0, 9),
            (3, 15),
            (6, 21),
            (11, 13),
            (14, 16),
            (17, 19),
            (20, 22),
        ],
        asked: &[1, 2, 4, 5, 7, 8, 10, 12, 18, 23],
        count: 10,
        of_corner: &[
            0, 1, 2, 3, 4, 5, 6, 7, 8, 9, 2, 1, 9, 4, 2, 9, 5, 4, 9, 7, 5, 9, 8, 7,
        ],
        ends: &[true; 10],
        follows: &[2, 10, 5, 12, 8, 18, 23, 1, 4, 7],
    },
];

#[test]
fn labels_and_follows(rt: HostRuntime) {
    for worked in SURFACES.iter() {
        is_told(&rt, rt.alloc(), worked);
    }
}

#[test]
fn follows_holes_and_cut_vertices(rt: HostRuntime) {
    for worked in HOLES_AND_CUTS.iter() {
        is_told(&rt, rt.alloc(), worked);
    }
}

/// For each side of two faces the number of the side across, or -1 for a free one.
fn numbers_across<L: Ledger>(
    rt: &impl Abort,
    alloc: Global,
    table: &SideTable,
    steps: &mut Steps<L>,
) -> Vec<i64> {
    let mut told = Vec::new(alloc);
    for side in 0..6 {
        let s = numbered(side);
        assert!(rt; s.face < table.face_count());
        told.push(number_of(table.other(s, steps)))
            .expect(rt, "a number");
    }
    told
}

/// Two faces glued at sides 0 and 5, under new numbers: for each new side the side across, or -1 for a free one.
fn renumbered_pair<L: Ledger>(rt: &impl Abort, alloc: Global, blank: Blank) -> Vec<i64>
    requires name { blank.name ≡ L.name }
    requires parts { blank.parts ≡ L.parts }
    requires some { 0 < L.parts }
{
    let mut steps = Steps::<L>::new(blank);
    let mut table = LinkedTable::<L>::with_room(alloc, 2).expect(rt, "room");
    add_faces(&mut table, 2, &mut steps);
    glue_pair(rt, &mut table, (0, 5), &mut steps);
    let rows = [(1, 1), (0, 2)];
    let now = table
        .into_sides()
        .renumbered(alloc, &rows, &mut steps)
        .expect(rt, "a table");
    numbers_across(rt, alloc, &now, &mut steps)
}

#[test]
fn renumbers_pairs(rt: HostRuntime) {
    let told = renumbered_pair::<Brand>(&rt, rt.alloc(), Blank::new(1));
    assert!(&rt; told.as_slice() == [-1, 4, -1, -1, 1, -1].as_slice());
}
