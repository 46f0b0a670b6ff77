//! One entry, corrected: its components one after another.

ghost use Rattle.std.specs.Prelude.{◌≡◌, ℕ, ◌+◌, ◌*◌, ◌<◌, ◌≤◌, ◌≤ℤ◌, ℤ, List, length, take, pos, slice_index_or, IfSome};
ghost use Rattle.std.specs.List.{All};
ghost use Rattle.predict.specs.Wrap.{correction_of};
ghost use Rattle.corner_table.specs.Ordered.{IsBelow, kept_face};
ghost use Rattle.predict.specs.Parallelogram.{by_one};
ghost use Rattle.predict.specs.Multi.{by_many};
ghost use Rattle.predict.specs.Entry.{Foretells, Corrected};

use crate::parallelograms::predicted;
use crate::wraps::Wrap;
use corner_table::{FREE, FaceAcross};

/// The correction of component `j` of entry `e`.
fn component_corrected(
    w: &Wrap,
    v: &[i32],
    comps: usize,
    e: usize,
    faces: &[FaceAcross],
    j: usize,
) -> i32
    requires component { j < comps }
    requires below { All (IsBelow e) faces.now }
    requires within { e * comps + comps ≤ length v.now }
    requires few { length faces.now ≤ 4 }
    requires range { All (λ x. (w.now.low ≤ℤ x) × (x ≤ℤ w.now.high)) v.now }
    ensures { result ≡ correction_of w.now (by_many comps faces.now j (take (e * comps + j) v.now)) (slice_index_or v.now (e * comps + j) (pos 0)) }
{
    w.correction(predicted(v, comps, e, faces, j), v[e * comps + j])
}

/// Puts the corrections of entry `e`, predicted from the parallelograms over these faces.
pub(crate) fn correct_entry(
    w: &Wrap,
    v: &[i32],
    comps: usize,
    e: usize,
    faces: &[FaceAcross],
    out: &mut [i32],
)
    requires below { All (IsBelow e) faces.now }
    requires within { e * comps + comps ≤ length v.now }
    requires few { length faces.now ≤ 4 }
    requires range { All (λ x. (w.now.low ≤ℤ x) × (x ≤ℤ w.now.high)) v.now }
    requires room { length out.old ≡ length v.now }
    ensures { (f : List ℤ → ℤ) → Foretells f comps e (by_many comps faces.now) → Corrected f w.now v.now out.old (e * comps) → Corrected f w.now v.now out.new (e * comps + comps) }
{
    let first = e * comps;
    for j in 0..comps {
        let correction = component_corrected(w, v, comps, e, faces, j);
        out[first + j] = correction;
    }
}

/// Puts the corrections of entry `e`, predicted from the parallelogram over the face that is kept for
/// it, where there is one.
pub(crate) fn correct_by_one(
    w: &Wrap,
    v: &[i32],
    comps: usize,
    e: usize,
    face: FaceAcross,
    out: &mut [i32],
)
    requires below { IfSome (kept_face face) (IsBelow e) }
    requires within { e * comps + comps ≤ length v.now }
    requires range { All (λ x. (w.now.low ≤ℤ x) × (x ≤ℤ w.now.high)) v.now }
    requires room { length out.old ≡ length v.now }
    ensures { (f : List ℤ → ℤ) → Foretells f comps e (by_one comps (kept_face face)) → Corrected f w.now v.now out.old (e * comps) → Corrected f w.now v.now out.new (e * comps + comps) }
{
    if face.across == FREE {
        correct_entry(w, v, comps, e, &[], out);
    } else {
        correct_entry(w, v, comps, e, &[face], out);
    }
}
