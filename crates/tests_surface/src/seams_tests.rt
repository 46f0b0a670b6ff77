//! Worked surfaces: their seams, the bits of these, and their classes. The expected values were
//! computed by a plain program that joins corners one by one.

ghost use Rattle.std.specs.Prelude.{◌≡◌, ◌<◌, length, IfOk};
ghost use Rattle.corner_table.specs.Table.{gluing_of};
ghost use Rattle.seams.specs.Seams.{AreFlags};

use attr_heads::Head;
use corner_table::{Classes, SideTable, Steps};
use drc_base::{MAX_FACES, Memory, Refusal};
use drc_bits::Cursor;
use mesh_model::CornerMesh;
use rans_binary::{BitBlock, write_block};
use seams::{classes, read_seams, seam_bits, seams_of, unseamed};
use std::alloc::Global;
use std::marker::Brand;
use std::process::Abort;
use std::sync::ledger::{Blank, Ledger};
use std::test::Fail;
use worked_surfaces::{SQUARE, TORUS, TORUS_PAIRS, glued};

/// A surface by its pairs of sides and a label for each corner, and what is expected of it: its seam
/// bits, the class of each corner, and of each class whether it ends.
struct Worked {
    pairs: &'static [(u32, u32)],
    labels: &'static [[u32; 3]],
    bits: &'static [bool],
    classes: &'static [u32],
    ends: &'static [bool],
}

/// A mesh whose first attribute is the same at all corners, and the second one distinguishes labels: one
/// by the first of its integers or by the second alone.
fn mesh(rt: &impl Abort, alloc: Global, labels: &[[u32; 3]]) -> Result<CornerMesh, Refusal> {
    let same = Head {
        usage: 4,
        dtype: 1,
        comps: 1,
        normalized: 0,
        id: 0,
        quant: None,
        octa: None,
    };
    let label = Head {
        usage: 4,
        dtype: 1,
        comps: 2,
        normalized: 0,
        id: 0,
        quant: None,
        octa: None,
    };
    let heads = vec![in alloc; same, label]?;
    let mut points = Vec::new(alloc);
    for p in 0..32u8 {
        points.push(7)?;
        points.push(i32::from(p / 2))?;
        points.push(i32::from(p % 2))?;
    }
    assert!(rt; points.len() % 3 == 0);
    CornerMesh::new(heads, points, labels.to_vec(alloc)?)
}

/// The blocks of two lists of bits, one after the other, and other bytes behind them.
fn two_blocks(
    rt: &impl Abort,
    alloc: Global,
    first: &[bool],
    second: &[bool],
) -> Result<Vec<u8>, Memory> {
    assert!(rt; first.len() < 100 && second.len() < 100);
    let mut bytes = write_block(alloc, first)?;
    let more = write_block(alloc, second)?;
    bytes.extend_from_slice(more.as_slice())?;
    bytes.extend_from_slice(&[7, 200, 255])?;
    Ok(bytes)
}

/// These are two lists of flags.
fn are_two_lists(rt: &impl Abort, lists: &[Vec<bool>], first: &[bool], second: &[bool]) {
    assert_eq!(rt; lists.len(), 2);
    assert!(rt; lists[0].as_slice() == first);
    assert!(rt; lists[1].as_slice() == second);
}

/// Reads two blocks, and compares with the flags that they are to give.
fn reads_back(
    rt: &impl Abort,
    alloc: Global,
    t: &SideTable,
    bytes: &[u8],
    first: &[bool],
    second: &[bool],
) -> Result<(), Fail> {
    let mut c = Cursor::new(bytes);
    let one = BitBlock::read(&mut c).map_err(|_| "a fault")?;
    let other = BitBlock::read(&mut c).map_err(|_| "a fault")?;
    let mut blocks = [one, other];
    let lists = read_seams(alloc, t, &mut blocks)?;
    are_two_lists(rt, lists.as_slice(), first, second);
    Ok(())
}

/// For each side the number of the side across, by a count of its own.
fn sides_by<L: Ledger>(t: &SideTable, blank: Blank) -> &[u32]
    requires name { blank.name ≡ L.name }
    requires parts { blank.parts ≡ L.parts }
    requires some { 0 < L.parts }
{
    let mut steps = Steps::<L>::new(blank);
    t.across(&mut steps)
}

/// For each side the number of the side across.
fn sides_across(t: &SideTable) -> &[u32] {
    sides_by::<Brand>(t, Blank::new(1))
}

/// Whether a table has the pairs of another that are no seam, and no others.
fn is_cut(cut: &SideTable, t: &SideTable, flags: &[bool]) -> bool {
    let pairs = sides_across(cut).iter().zip(sides_across(t));
    for ((now, before), flag) in pairs.zip(flags) {
        let wanted = if *flag { u32::MAX } else { *before };
        if *now != wanted {
            return false;
        }
    }
    true
}

/// The bits of a surface's seams are those that are due; these, and those of no seams, are read back.
fn has_bits(
    rt: &impl Abort,
    alloc: Global,
    t: &SideTable,
    flags: &[bool],
    whole: &[bool],
    due: &[bool],
) -> Result<(), Fail>
    requires flags { AreFlags t.now.faces (gluing_of t.now) flags.now }
    requires whole { AreFlags t.now.faces (gluing_of t.now) whole.now }
{
    let bits = seam_bits(alloc, t, flags)?;
    assert!(rt; bits.as_slice() == due);
    let no_bits = seam_bits(alloc, t, whole)?;
    let bytes = two_blocks(rt, alloc, bits.as_slice(), no_bits.as_slice())?;
    reads_back(rt, alloc, t, bytes.as_slice(), flags, whole)
}

/// The classes of a surface that is cut at its seams are those that are due.
fn has_classes(
    rt: &impl Abort,
    alloc: Global,
    t: &SideTable,
    flags: &[bool],
    worked: &Worked,
) -> Result<(), Memory>
    requires { AreFlags t.now.faces (gluing_of t.now) flags.now }
{
    let found = classes(alloc, t, Some(flags))?;
    assert!(rt; found.of_corner.as_slice() == worked.classes);
    assert!(rt; found.ends.as_slice() == worked.ends);
    Ok(())
}

/// Two surfaces have the same classes.
fn have_same_classes(rt: &impl Abort, one: &Classes, other: &Classes) {
    assert!(rt; one.of_corner.as_slice() == other.of_corner.as_slice());
    assert!(rt; one.ends.as_slice() == other.ends.as_slice());
}

/// Without seams the classes of a surface are its vertices.
fn has_whole_vertices(
    rt: &impl Abort,
    alloc: Global,
    t: &SideTable,
    whole: &[bool],
) -> Result<(), Memory>
    requires { AreFlags t.now.faces (gluing_of t.now) whole.now }
{
    let vertices = classes(alloc, t, None)?;
    let uncut = classes(alloc, t, Some(whole))?;
    have_same_classes(rt, &vertices, &uncut);
    Ok(())
}

/// Compares the bits, the classes and the cut table of a surface with those expected, by the flags of its seams
/// and by those of none.
fn is_cut_as_told(
    rt: &impl Abort,
    alloc: Global,
    t: &SideTable,
    flags: &[bool],
    whole: &[bool],
    worked: &Worked,
) -> Result<(), Fail>
    requires flags { AreFlags t.now.faces (gluing_of t.now) flags.now }
    requires whole { AreFlags t.now.faces (gluing_of t.now) whole.now }
{
    has_bits(rt, alloc, t, flags, whole, worked.bits)?;
    has_classes(rt, alloc, t, flags, worked)?;
    has_whole_vertices(rt, alloc, t, whole)?;
    let cut = unseamed(alloc, t, flags)?;
    assert!(rt; is_cut(&cut, t, flags));
    Ok(())
}

/// Compares the seams, bits and classes of a mesh and its table with those expected.
fn has_seams(
    rt: &impl Abort,
    alloc: Global,
    m: &CornerMesh,
    t: &SideTable,
    worked: &Worked,
) -> Result<(), Fail> {
    assert_eq!(rt; m.heads().len(), 2);
    assert_eq!(rt; t.face_count(), m.face_count());
    let flags = seams_of(alloc, m, t, 1)?;
    let whole = seams_of(alloc, m, t, 0)?;
    is_cut_as_told(rt, alloc, t, flags.as_slice(), whole.as_slice(), worked)
}

/// Compares the seams, bits and classes of a surface with those expected.
fn is_told(rt: &impl Abort, alloc: Global, worked: &Worked) -> Result<(), Fail> {
    let m = mesh(rt, alloc, worked.labels).map_err(|_| "a refusal")?;
    let faces = m.face_count();
    assert!(rt; faces <= MAX_FACES);
    let t = glued(alloc, faces, worked.pairs)?;
    has_seams(rt, alloc, &m, &t, worked)
}

/// Surfaces of two to four faces.
static FEW_FACES: [Worked; 7] = [
    // Two faces with a label each.
    Worked {
        pairs: &[(0, 5)],
        labels: &[[7, 7, 7], [9, 9, 9]],
        bits: &[true],
        classes: &[0, 1, 2, 3, 4, 5],
        ends: &[true; 6],
    },
    // The same, where the labels differ at one end of their side alone.
    Worked {
        pairs: &[(0, 5)],
        labels: &[[0, 1, 2], [3, 1, 4]],
        bits: &[true],
        classes: &[0, 1, 2, 3, 4, 5],
        ends: &[true; 6],
    },
    // The same, at the other end.
    Worked {
        pairs: &[(0, 5)],
        labels: &[[0, 1, 2], [2, 3, 4]],
        bits: &[true],
        classes: &[0, 1, 2, 3, 4, 5],
        ends: &[true; 6],
    },
    // Two faces without a seam.
    Worked {
        pairs: &[(0, 5)],
        labels: &SQUARE,
        bits: &[false],
        classes: &[0, 1, 2, 2, 1, 3],
        ends: &[true; 4],
    },
    // A closed fan in two halves.
    Worked {
        pairs: &[(1, 5), (2, 10), (4, 8), (7, 11)],
        labels: &[[0, 1, 2], [0, 2, 3], [5, 3, 4], [5, 4, 1]],
        bits: &[false, true, true, false],
        classes: &[0, 1, 2, 0, 2, 3, 4, 5, 6, 4, 6, 7],
        ends: &[true; 8],
    },
    // A closed fan with a seam that ends at its vertex: one class, which ends.
    Worked {
        pairs: &[(1, 5), (2, 10), (4, 8), (7, 11)],
        labels: &[[0, 1, 2], [0, 2, 3], [0, 3, 4], [0, 4, 9]],
        bits: &[false, true, false, false],
        classes: &[0, 1, 2, 0, 2, 3, 0, 3, 4, 0, 4, 5],
        ends: &[true; 6],
    },
    // An open fan of three faces.
    Worked {
        pairs: &[(1, 5), (4, 8)],
        labels: &[[0, 1, 2], [0, 2, 3], [5, 3, 4]],
        bits: &[false, true],
        classes: &[0, 1, 2, 0, 2, 3, 4, 5, 6],
        ends: &[true; 7],
    },
];

#[test]
fn tells_seams_of_few_faces(rt: HostRuntime) -> Result<(), Fail> {
    let alloc = rt.alloc();
    for worked in FEW_FACES.iter() {
        is_told(&rt, alloc, worked)?;
    }
    Ok(())
}

/// Surfaces of eight to fourteen faces.
static SURFACES: [Worked; 4] = [
    // A cube with a label for each of its sides.
    Worked {
        pairs: &[
            (0, 22),
            (1, 5),
            (2, 28),
            (3, 32),
            (4, 14),
            (6, 33),
            (7, 11),
            (8, 15),
            (9, 18),
            (10, 24),
            (12, 34),
            (13, 17),
            (16, 26),
            (19, 23),
            (20, 27),
            (21, 30),
            (25, 29),
            (31, 35),
        ],
        labels: &[
            [0, 0, 0],
            [0, 0, 0],
            [1, 1, 1],
            [1, 1, 1],
            [2, 2, 2],
            [2, 2, 2],
            [3, 3, 3],
            [3, 3, 3],
            [4, 4, 4],
            [4, 4, 4],
            [5, 5, 5],
            [5, 5, 5],
        ],
        bits: &[
            true, false, true, true, true, true, false, true, true, true, true, false, true, false,
            true, true, false, false,
        ],
        classes: &[
            0, 1, 2, 0, 2, 3, 4, 5, 6, 4, 6, 7, 8, 9, 10, 8, 10, 11, 12, 13, 14, 12, 14, 15, 16,
            17, 18, 16, 18, 19, 20, 21, 22, 20, 22, 23,
        ],
        ends: &[true; 24],
    },
    // A torus without seams.
    Worked {
        pairs: &TORUS_PAIRS,
        labels: &TORUS,
        bits: &[
            false, false, false, false, false, false, false, false, false, false, false, false,
            false, false, false, false, false, false, false, false, false,
        ],
        classes: &[
            0, 1, 2, 1, 3, 4, 3, 2, 5, 2, 4, 6, 4, 5, 0, 5, 6, 1, 6, 0, 3, 0, 2, 3, 1, 4, 2, 3, 5,
            4, 2, 6, 5, 4, 0, 6, 5, 1, 0, 6, 3, 1,
        ],
        ends: &[false; 7],
    },
    // A torus with a strip of five faces cut out.
    Worked {
        pairs: &TORUS_PAIRS,
        labels: &[
            [10, 11, 13],
            [11, 12, 14],
            [12, 13, 15],
            [13, 14, 16],
            [14, 15, 10],
            [5, 6, 1],
            [6, 0, 2],
            [0, 3, 2],
            [1, 4, 3],
            [2, 5, 4],
            [3, 6, 5],
            [4, 0, 6],
            [5, 1, 0],
            [6, 2, 1],
        ],
        bits: &[
            true, true, true, true, true, true, true, true, true, true, true, true, true, true,
            true, false, false, false, false, false, false,
        ],
        classes: &[
            0, 1, 2, 3, 4, 5, 6, 7, 8, 9, 10, 11, 12, 13, 14, 15, 16, 17, 16, 18, 19, 18, 20, 19,
            21, 22, 23, 24, 25, 26, 27, 16, 15, 28, 18, 16, 15, 17, 29, 16, 19, 17,
        ],
        ends: &[true; 30],
    },
    // Eight faces, of which three parts meet at a point; three faces are cut off.
    Worked {
        pairs: &[
            (0, 9),
            (3, 15),
            (6, 21),
            (11, 13),
            (14, 16),
            (17, 19),
            (20, 22),
        ],
        labels: &[
            [0, 1, 2],
            [3, 4, 5],
            [6, 7, 8],
            [9, 2, 1],
            [9, 4, 2],
            [29, 25, 24],
            [29, 27, 25],
            [29, 28, 27],
        ],
        bits: &[false, true, true, false, true, false, false],
        classes: &[
            0, 1, 2, 3, 4, 5, 6, 7, 8, 9, 2, 1, 9, 10, 2, 11, 12, 13, 11, 14, 12, 11, 15, 14,
        ],
        ends: &[true; 16],
    },
];

#[test]
fn tells_seams_of_surfaces(rt: HostRuntime) -> Result<(), Fail> {
    let alloc = rt.alloc();
    for worked in SURFACES.iter() {
        is_told(&rt, alloc, worked)?;
    }
    Ok(())
}
