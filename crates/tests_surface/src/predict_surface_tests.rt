//! Predictions by parallelograms on small surfaces, with ample memory.

ghost use Rattle.std.specs.Prelude.{◌≡◌, ◌*◌, ◌<◌, ◌≤◌, ◌≤ℤ◌, IsTrue, true, length};
ghost use Rattle.std.specs.List.{All};
ghost use Rattle.predict.specs.Schemes.{facts};
ghost use Rattle.predict.specs.Surfaces.{IsOverTable};

use crate::sources::ListedCorrections;
use drc_base::{Kind, Sequence};
use predict::{
    Flags, Ordered, Prediction, Wrap, correct_multi, correct_parallelogram, restore_with_flags,
};
use std::alloc::Global;
use std::process::Abort;
use worked_surfaces::{SQUARE_ORDER, WorkedOrder, ordered};

/// Whether all values lie in a range.
pub(crate) fn all_within(v: &[i32], low: i32, high: i32) -> bool
    ensures { IsTrue result → All (λ x. (low ≤ℤ x) × (x ≤ℤ high)) v.now }
{
    for i in 0..v.len() {
        let value = v[i];
        if value < low {
            return false;
        }
        if value > high {
            return false;
        }
    }
    true
}

/// A tetrahedron.
static TETRAHEDRON: WorkedOrder = WorkedOrder {
    faces: 4,
    pairs: &[(0, 8), (1, 11), (2, 5), (3, 10), (4, 6), (7, 9)],
    corners: &[1, 2, 0, 5],
};

/// Two faces, of which the parallelogram comes later.
static LATER: WorkedOrder = WorkedOrder {
    faces: 2,
    pairs: &[(0, 4)],
    corners: &[1, 2, 4, 0],
};

/// What corrections restore over a surface, by a prediction with these flags.
fn come_back(
    rt: &impl Abort,
    alloc: Global,
    prediction: Prediction,
    on: &Ordered<'_>,
    wrap: &Wrap,
    comps: u32,
    flags: &Flags,
    corrections: &[i32],
) -> Result<Vec<i32>, Kind>
    requires corrects { (facts prediction).corrects ≡ true }
    requires some { 0 < comps }
    requires over { IsOverTable on.now }
    requires whole { length corrections.now ≡ length on.now.order.now.corner_of_entry * comps }
{
    let copy = Vec::from_slice(alloc, corrections).expect(rt, "a copy");
    let source = ListedCorrections::new(copy);
    restore_with_flags(alloc, prediction, wrap, comps, Some(on), flags, source).expect(
        rt,
        "ample memory",
    )
}

/// The values are restored from these corrections.
fn are_restored(
    rt: &impl Abort,
    alloc: Global,
    prediction: Prediction,
    on: &Ordered<'_>,
    wrap: &Wrap,
    comps: u32,
    flags: &Flags,
    corrections: &[i32],
    v: &[i32],
)
    requires corrects { (facts prediction).corrects ≡ true }
    requires some { 0 < comps }
    requires over { IsOverTable on.now }
    requires whole { length v.now ≡ length on.now.order.now.corner_of_entry * comps }
{
    assert!(rt; corrections.len() == v.len());
    let again = come_back(rt, alloc, prediction, on, wrap, comps, flags, corrections);
    assert!(rt; again.expect(rt, "enough flags").as_slice() == v);
}

/// How many values there are over an order, with so many of each entry.
fn count_of(rt: &impl Abort, on: &Ordered<'_>, comps: u32) -> usize
    ensures some { 0 < comps }
    ensures count { result ≡ length on.now.order.now.corner_of_entry * comps }
{
    let entries = on.order.corner_of_entry.len();
    assert!(rt; comps > 0 && comps < 9 && entries < 100);
    entries * comps as usize
}

/// The corrections by one and by several parallelograms and the flags, after it was seen that the
/// values are restored from them.
fn told(
    rt: &impl Abort,
    alloc: Global,
    on: &Ordered<'_>,
    range: (i32, i32),
    comps: u32,
    v: &[i32],
) -> (Vec<i32>, Vec<i32>, Flags)
    requires { IsOverTable on.now }
{
    let wrap = Wrap::new(range.0, range.1).expect(rt, "a range");
    assert!(rt; all_within(v, range.0, range.1));
    assert!(rt; v.len() == count_of(rt, on, comps));
    let one = correct_parallelogram(alloc, &wrap, comps, on, v).expect(rt, "corrections");
    let (many, flags) = correct_multi(alloc, &wrap, comps, on, v).expect(rt, "corrections");
    let (by_one, by_many) = (Prediction::Parallelogram, Prediction::Multi);
    are_restored(
        rt,
        alloc,
        by_one,
        on,
        &wrap,
        comps,
        &flags,
        one.as_slice(),
        v,
    );
    are_restored(
        rt,
        alloc,
        by_many,
        on,
        &wrap,
        comps,
        &flags,
        many.as_slice(),
        v,
    );
    (one, many, flags)
}

/// The same over a surface.
fn told_over(
    rt: &impl Abort,
    alloc: Global,
    surface: &WorkedOrder,
    range: (i32, i32),
    comps: u32,
    v: &[i32],
) -> (Vec<i32>, Vec<i32>, Flags) {
    let worked = ordered(alloc, surface).expect(rt, "ample memory");
    let (sides, classes, order) = worked.expect(rt, "corners of the table");
    let on = Ordered {
        sides: &sides,
        classes: &classes,
        order: &order,
    };
    told(rt, alloc, &on, range, comps, v)
}

/// The lists of some flags, three lists of which are empty.
fn with_list(rt: &impl Abort, alloc: Global, list: &[bool], place: usize) -> Flags {
    let mut lists = Vec::new(alloc);
    for k in 0..4 {
        let flags = if k == place { list } else { &[] };
        let flags = Vec::from_slice(alloc, flags).expect(rt, "flags");
        lists.push(Sequence::from_vec(flags)).expect(rt, "a list");
    }
    Flags {
        lists: Sequence::from_vec(lists),
    }
}

/// Whether these are four lists, and all but this one are empty.
fn has_list(flags: &Flags, list: &[bool], place: usize) -> bool {
    let lists = flags.lists.as_slice();
    for k in 0..lists.len() {
        let wanted: &[bool] = if k == place { list } else { &[] };
        if lists[k].as_slice() != wanted {
            return false;
        }
    }
    lists.len() == 4
}

/// What restoring answers with these flags.
fn answer(
    rt: &impl Abort,
    alloc: Global,
    on: &Ordered<'_>,
    flags: &Flags,
    corrections: &[i32],
) -> Result<Vec<i32>, Kind>
    requires { IsOverTable on.now }
{
    let wrap = Wrap::new(0, 2).expect(rt, "a range");
    let entries = on.order.corner_of_entry.len();
    assert!(rt; entries < 100);
    assert!(rt; corrections.len() == entries * 3);
    come_back(
        rt,
        alloc,
        Prediction::Multi,
        on,
        &wrap,
        3,
        flags,
        corrections,
    )
}

/// The same over two faces, of which the parallelogram comes before the last entry.
fn answer_over(
    rt: &impl Abort,
    alloc: Global,
    flags: &Flags,
    corrections: &[i32],
) -> Result<Vec<i32>, Kind> {
    let worked = ordered(alloc, &SQUARE_ORDER).expect(rt, "ample memory");
    let (sides, classes, order) = worked.expect(rt, "corners of the table");
    let on = Ordered {
        sides: &sides,
        classes: &classes,
        order: &order,
    };
    answer(rt, alloc, &on, flags, corrections)
}

/// Values on two faces, of which the parallelogram comes before the last entry.
static VALUES: [i32; 12] = [0, 2, 0, 2, 0, 0, 2, 2, 0, 0, 0, 0];

/// The corrections of these values, by one parallelogram and by several.
static CORRECTIONS: [i32; 12] = [0, -1, 0, -1, 1, 0, 0, -1, 0, 0, 0, 0];

#[test]
fn parallelograms_round_a_tetrahedron_are_left_out(rt: HostRuntime) {
    let values = [0, 0, 1, 0, 1, 0, 0, 0, 0, 1, 0, 0];
    let (_, many, flags) = told_over(&rt, rt.alloc(), &TETRAHEDRON, (0, 1), 3, &values);
    assert!(&rt; many.as_slice() == [0, 0, -1, 0, -1, -1, 0, -1, 0, -1, 0, 0].as_slice());
    assert!(&rt; has_list(&flags, &[true; 3], 2));
}

#[test]
fn one_parallelogram_is_kept_where_it_comes_before(rt: HostRuntime) {
    let (one, many, flags) = told_over(&rt, rt.alloc(), &SQUARE_ORDER, (0, 2), 3, &VALUES);
    assert!(&rt; one.as_slice() == CORRECTIONS.as_slice());
    assert!(&rt; many.as_slice() == CORRECTIONS.as_slice());
    assert!(&rt; has_list(&flags, &[false], 0));
}

#[test]
fn flags_that_are_left_over_count_for_nothing(rt: HostRuntime) {
    let over = with_list(&rt, rt.alloc(), &[false, true], 0);
    let read = answer_over(&rt, rt.alloc(), &over, &CORRECTIONS);
    assert!(&rt; read.expect(&rt, "enough flags").as_slice() == VALUES.as_slice());
}

#[test]
fn missing_flags_are_refused(rt: HostRuntime) {
    let short = with_list(&rt, rt.alloc(), &[false], 1);
    let read = answer_over(&rt, rt.alloc(), &short, &CORRECTIONS);
    assert!(&rt; matches!(read, Err(Kind::FlagsShort)));
}

#[test]
fn one_parallelogram_is_left_out_where_it_comes_later(rt: HostRuntime) {
    let values = [0, 2, 0, 2, 0, 0, 0, 0, 0, 2, 2, 0];
    let (one, _, _) = told_over(&rt, rt.alloc(), &LATER, (0, 2), 3, &values);
    assert!(&rt; one.as_slice() == [0, -1, 0, -1, 1, 0, 1, 0, 0, 0, 0, 0].as_slice());
}

#[test]
fn parallelograms_pass_32_bits(rt: HostRuntime) {
    let values = [2147483647, 2147483647, 2147483637, 2147483637];
    let (one, _, _) = told_over(
        &rt,
        rt.alloc(),
        &SQUARE_ORDER,
        (2147483637, 2147483647),
        1,
        &values,
    );
    assert!(&rt; one.as_slice() == [-1, 0, 1, 0].as_slice());
}
