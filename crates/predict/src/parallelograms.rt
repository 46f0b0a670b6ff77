//! The prediction of one component of an entry from parallelograms, or from the entry before.

ghost use Rattle.std.specs.Prelude.{◌≡◌, ◌+◌, ◌*◌, ◌<◌, ◌≤◌, ◌+ℤ◌, length, take, get_or};
ghost use Rattle.std.specs.Int.{w32, int_wrap};
ghost use Rattle.std.specs.List.{All};
ghost use Rattle.predict.specs.Restored.{entry_before};
ghost use Rattle.corner_table.specs.Ordered.{IsBelow};
ghost use Rattle.predict.specs.Parallelogram.{component, fourth};
ghost use Rattle.predict.specs.Multi.{by_many};

use crate::wholes::{half, quarter, third, wrapping_difference, wrapping_sum};
use corner_table::FaceAcross;

/// Component `j` of entry `k`, which is before entry `e`.
pub(crate) fn value_at(v: &[i32], comps: usize, e: usize, k: usize, j: usize) -> i32
    requires component { j < comps }
    requires before { k < e }
    requires within { e * comps ≤ length v.now }
    ensures { result ≡ component comps v.now k j }
{
    v[k * comps + j]
}

/// Component `j` of the fourth corner of the parallelogram over a face.
pub(crate) fn fourth(v: &[i32], comps: usize, e: usize, t: FaceAcross, j: usize) -> i32
    requires component { j < comps }
    requires below { IsBelow e t }
    requires within { e * comps ≤ length v.now }
    ensures { result ≡ fourth comps t j v.now }
{
    let after = value_at(v, comps, e, t.after as usize, j);
    let before = value_at(v, comps, e, t.before as usize, j);
    let across = value_at(v, comps, e, t.across as usize, j);
    wrapping_difference(wrapping_sum(after, before), across)
}

/// The same of a face of a list.
fn fourth_of(v: &[i32], comps: usize, e: usize, faces: &[FaceAcross], i: usize, j: usize) -> i32
    requires component { j < comps }
    requires below { All (IsBelow e) faces.now }
    requires within { e * comps ≤ length v.now }
    requires face { i < length faces.now }
    ensures { (d : FaceAcross) → result ≡ fourth comps (get_or faces.now i d) j v.now }
{
    fourth(v, comps, e, faces[i], j)
}

/// The sum of two of them, to 32 bits.
fn sum_of_two(v: &[i32], comps: usize, e: usize, faces: &[FaceAcross], j: usize) -> i32
    requires component { j < comps }
    requires below { All (IsBelow e) faces.now }
    requires within { e * comps ≤ length v.now }
    requires two { 1 < length faces.now }
    ensures { (d : FaceAcross) → result ≡ int_wrap w32 (fourth comps (get_or faces.now 0 d) j v.now +ℤ fourth comps (get_or faces.now 1 d) j v.now) }
{
    let first = fourth_of(v, comps, e, faces, 0, j);
    let second = fourth_of(v, comps, e, faces, 1, j);
    wrapping_sum(first, second)
}

/// The sum of three of them, to 32 bits.
fn sum_of_three(v: &[i32], comps: usize, e: usize, faces: &[FaceAcross], j: usize) -> i32
    requires component { j < comps }
    requires below { All (IsBelow e) faces.now }
    requires within { e * comps ≤ length v.now }
    requires three { 2 < length faces.now }
    ensures { (d : FaceAcross) → result ≡ int_wrap w32 ((fourth comps (get_or faces.now 0 d) j v.now +ℤ fourth comps (get_or faces.now 1 d) j v.now) +ℤ fourth comps (get_or faces.now 2 d) j v.now) }
{
    let two = sum_of_two(v, comps, e, faces, j);
    let last = fourth_of(v, comps, e, faces, 2, j);
    wrapping_sum(two, last)
}

/// The sum of four of them, to 32 bits.
fn sum_of_four(v: &[i32], comps: usize, e: usize, faces: &[FaceAcross], j: usize) -> i32
    requires component { j < comps }
    requires below { All (IsBelow e) faces.now }
    requires within { e * comps ≤ length v.now }
    requires four { 3 < length faces.now }
    ensures { (d : FaceAcross) → result ≡ int_wrap w32 (((fourth comps (get_or faces.now 0 d) j v.now +ℤ fourth comps (get_or faces.now 1 d) j v.now) +ℤ fourth comps (get_or faces.now 2 d) j v.now) +ℤ fourth comps (get_or faces.now 3 d) j v.now) }
{
    let three = sum_of_three(v, comps, e, faces, j);
    let last = fourth_of(v, comps, e, faces, 3, j);
    wrapping_sum(three, last)
}

/// Component `j` of entry `e` from the entry before; 0 for the first entry.
fn from_before(v: &[i32], comps: usize, e: usize, j: usize) -> i32
    requires component { j < comps }
    requires within { e * comps + comps ≤ length v.now }
    ensures { result ≡ entry_before comps (take (e * comps + j) v.now) }
{
    if e == 0 {
        0
    } else {
        value_at(v, comps, e, e - 1, j)
    }
}

/// Component `j` of entry `e`, predicted by the mean of the parallelograms over these faces.
#[inline(always)]
pub(crate) fn mean_of(v: &[i32], comps: usize, e: usize, faces: &[FaceAcross], j: usize) -> i32
    requires component { j < comps }
    requires below { All (IsBelow e) faces.now }
    requires within { e * comps ≤ length v.now }
    requires some { 0 < length faces.now }
    requires few { length faces.now ≤ 4 }
    ensures { result ≡ by_many comps faces.now j (take (e * comps + j) v.now) }
{
    match faces.len() {
        1 => fourth_of(v, comps, e, faces, 0, j),
        2 => half(sum_of_two(v, comps, e, faces, j)),
        3 => third(sum_of_three(v, comps, e, faces, j)),
        _ => quarter(sum_of_four(v, comps, e, faces, j)),
    }
}

/// Component `j` of entry `e`, predicted from the entries before: from the parallelograms over these
/// faces, or from the entry before where there is none.
pub(crate) fn predicted(v: &[i32], comps: usize, e: usize, faces: &[FaceAcross], j: usize) -> i32
    requires component { j < comps }
    requires below { All (IsBelow e) faces.now }
    requires within { e * comps + comps ≤ length v.now }
    requires few { length faces.now ≤ 4 }
    ensures { result ≡ by_many comps faces.now j (take (e * comps + j) v.now) }
{
    if faces.len() == 0 {
        from_before(v, comps, e, j)
    } else {
        mean_of(v, comps, e, faces, j)
    }
}
