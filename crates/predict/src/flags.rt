//! The flags of predictions: of constrained multi-parallelogram prediction, which parallelograms are left
//! out.

ghost use Rattle.std.specs.Prelude.{◌≡◌, ℕ, suc, ◌+◌, ◌-◌, ◌*◌, ◌^◌, ◌<◌, ◌≤◌, [], ◌∷◌, ◌++◌, cond, nat_eq, nat_lt, unsigned_abs, ◌-ℤ◌, List, Bool, length, map, take, drop, get_or, IfOk, IfSome, MatchOption, IsTrue, ◌↔◌};
ghost use Rattle.std.specs.List.{All};
ghost use Rattle.corner_table.specs.Ordered.{IsBelow};
ghost use Rattle.predict.specs.Parallelogram.{component, fourth};
ghost use Rattle.predict.specs.Multi.{kept, off_by, is_left_out};

use crate::parallelograms::{fourth, value_at};
use arrayvec::ArrayVec;
use corner_table::FaceAcross;
use drc_base::Sequence;
use std::alloc::Global;

/// The flags of a prediction, in the order in which they are taken.
#[derive(Debug, Drop)]
pub struct Flags {
    /// As many lists as the prediction has. Of constrained multi-parallelogram prediction list k - 1 has
    /// the flags of the entries with k parallelograms, one for each: whether it is left out.
    pub lists: Sequence<Sequence<bool>>,
}

impl Flags {
    /// No flags.
    pub fn none(alloc: Global) -> Flags
        ensures { result.lists ≡ [] }
    {
        Flags {
            lists: Sequence::from_vec(Vec::new(alloc)),
        }
    }
}

/// Keeps a face, unless it is left out.
fn keep_one(faces: &mut ArrayVec<FaceAcross, 4>, face: FaceAcross, left_out: bool)
    requires { length faces.old.items < 4 }
    ensures { faces.new.items ≡ faces.old.items ++ cond left_out [] (face ∷ []) }
{
    if !left_out {
        faces.push(face);
    }
}

/// The faces that flags keep.
pub(crate) fn keep(found: &[FaceAcross], flags: &[bool]) -> ArrayVec<FaceAcross, 4>
    requires same { length flags.now ≡ length found.now }
    requires few { length found.now ≤ 4 }
    ensures faces { result.items ≡ kept flags.now found.now }
    ensures few { length result.items ≤ 4 }
    ensures below { (e : ℕ) → All (IsBelow e) found.now → All (IsBelow e) result.items }
{
    let mut faces = ArrayVec::new();
    for i in 0..found.len() {
        keep_one(&mut faces, found[i], flags[i]);
    }
    faces
}

/// How far the entry before entry `e` is off its values, in sum.
fn off_before(v: &[i32], comps: usize, e: usize) -> u64
    requires later { 0 < e }
    requires within { e * comps + comps ≤ length v.now }
    requires comps { comps < 2 ^ 32 }
    ensures { result ≡ off_by (component comps v.now (e - 1)) (component comps v.now e) comps }
{
    let mut off = 0u64;
    for j in 0..comps {
        let value = value_at(v, comps, e + 1, e, j);
        let before = value_at(v, comps, e, e - 1, j);
        off += u64::from(before.abs_diff(value));
    }
    off
}

/// How far the parallelogram over a face is off the values of entry `e`, in sum.
fn off_fourth(v: &[i32], comps: usize, e: usize, t: FaceAcross) -> u64
    requires below { IsBelow e t }
    requires within { e * comps + comps ≤ length v.now }
    requires comps { comps < 2 ^ 32 }
    ensures { result ≡ off_by (λ j. fourth comps t j v.now) (component comps v.now e) comps }
{
    let mut off = 0u64;
    for j in 0..comps {
        let value = value_at(v, comps, e + 1, e, j);
        let corner = fourth(v, comps, e, t, j);
        off += u64::from(corner.abs_diff(value));
    }
    off
}

/// The flags that are written for the faces of entry `e`: set where the entry before is nearer.
pub(crate) fn marks_of(v: &[i32], comps: usize, e: usize, found: &[FaceAcross]) -> ArrayVec<bool, 4>
    requires below { All (IsBelow e) found.now }
    requires within { e * comps + comps ≤ length v.now }
    requires comps { comps < 2 ^ 32 }
    requires few { length found.now ≤ 4 }
    ensures { result.items ≡ map (is_left_out comps v.now e) found.now }
{
    let mut marks = ArrayVec::new();
    if found.len() == 0 {
        return marks;
    }
    let before = off_before(v, comps, e);
    for i in 0..found.len() {
        marks.push(before < off_fourth(v, comps, e, found[i]));
    }
    marks
}
