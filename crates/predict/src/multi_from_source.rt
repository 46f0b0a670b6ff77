//! Restoring values from a source of corrections with flags, by constrained multi-parallelogram prediction.

ghost use Rattle.std.specs.Prelude.{◌≡◌, ℤ, ◌+◌, ◌*◌, ◌<◌, ◌≤◌, List, length, IfOk, MatchResult, vec_len, vec_capacity};
ghost use Rattle.std.specs.List.{All};
ghost use Rattle.corner_table.specs.Ordered.{IsBelow};
ghost use Rattle.predict.specs.Restored.{restored, restored_behind};
ghost use Rattle.predict.specs.Multi.{by_many, multi, HasFlags, LacksFlags};
ghost use Rattle.predict.specs.Entry.{Foretells};
ghost use Rattle.predict.specs.Surfaces.{surface, IsOverTable};

use crate::flags::Flags;
use crate::from_source::{put_by_difference, put_value};
use crate::multi::take_flags;
use crate::orders::Ordered;
use crate::parallelograms::mean_of;
use crate::sources::CorrectionSource;
use crate::surface::surface_of;
use crate::wraps::Wrap;
use corner_table::FaceAcross;
use drc_base::{Kind, Memory};
use std::alloc::Global;

/// Puts the values of entry `e`, foretold by the mean of the parallelograms over these faces.
#[inline(always)]
fn put_by_mean<C: CorrectionSource>(
    w: &Wrap,
    comps: usize,
    e: usize,
    faces: &[FaceAcross],
    values: &mut Vec<i32>,
    source: &mut C,
)
    requires below { All (IsBelow e) faces.now }
    requires faces { 0 < length faces.now }
    requires few { length faces.now ≤ 4 }
    requires here { vec_len values.old ≡ e * comps }
    requires room { vec_len values.old + comps ≤ vec_capacity values.old }
    requires enough { comps ≤ length (C.left source.old) }
    ensures values { (f : List ℤ → ℤ) → Foretells f comps e (by_many comps faces.now)
        → restored_behind f w.now values.new.items (C.left source.new) ≡ restored_behind f w.now values.old.items (C.left source.old) }
    ensures left { length (C.left source.old) ≡ length (C.left source.new) + comps }
    ensures len { vec_len values.new ≡ vec_len values.old + comps }
    ensures capacity { vec_capacity values.new ≡ vec_capacity values.old }
{
    for j in 0..comps {
        let foretold = mean_of(values.as_slice(), comps, e, faces, j);
        put_value(w, foretold, values, source);
    }
}

/// Puts the values of entry `e`, foretold by the mean of the parallelograms over the faces that are kept
/// for it, and by the entry before where none is.
#[inline(always)]
fn put_by_many<C: CorrectionSource>(
    w: &Wrap,
    comps: usize,
    e: usize,
    faces: &[FaceAcross],
    values: &mut Vec<i32>,
    source: &mut C,
)
    requires some { 0 < comps }
    requires below { All (IsBelow e) faces.now }
    requires few { length faces.now ≤ 4 }
    requires here { vec_len values.old ≡ e * comps }
    requires room { vec_len values.old + comps ≤ vec_capacity values.old }
    requires enough { comps ≤ length (C.left source.old) }
    ensures values { (f : List ℤ → ℤ) → Foretells f comps e (by_many comps faces.now)
        → restored_behind f w.now values.new.items (C.left source.new) ≡ restored_behind f w.now values.old.items (C.left source.old) }
    ensures left { length (C.left source.old) ≡ length (C.left source.new) + comps }
    ensures len { vec_len values.new ≡ vec_len values.old + comps }
    ensures capacity { vec_capacity values.new ≡ vec_capacity values.old }
{
    if faces.len() == 0 {
        put_by_difference(w, comps, e, values, source);
    } else {
        put_by_mean(w, comps, e, faces, values, source);
    }
}

/// The values that corrections restore, each foretold by the mean of those parallelograms that the flags of
/// its entry keep.
#[inline(always)]
pub(crate) fn by_multi<C: CorrectionSource>(
    alloc: Global,
    w: &Wrap,
    comps: usize,
    on: &Ordered<'_>,
    flags: &Flags,
    source: C,
) -> Result<Result<Vec<i32>, Kind>, Memory>
    requires some { 0 < comps }
    requires over { IsOverTable on.now }
    requires whole { length (C.left source) ≡ length on.now.order.now.corner_of_entry * comps }
    ensures values { IfOk result (λ r. IfOk r (λ v. v.items ≡ restored (multi (surface on.now) comps flags.now.lists) w.now (C.left source))) }
    ensures flags { IfOk result (λ r. MatchResult r (λ _. HasFlags (surface on.now) flags.now.lists) (λ k. (k ≡ Kind.FlagsShort) × LacksFlags (surface on.now) flags.now.lists)) }
    ensures len { IfOk result (λ r. IfOk r (λ v. length v.items ≡ length (C.left source))) }
{
    let wrap = w.copy();
    let mut source = source;
    let surface = surface_of(on);
    let n = source.len();
    let mut values = Vec::with_capacity(alloc, n)?;
    let mut used = [0usize; 4];
    let mut ahead = surface.gather_ahead(0);
    for e in 0..surface.corners.len() {
        let found = ahead;
        // The next entry's faces are looked for before this entry is put, so that neither waits for the other.
        ahead = surface.gather_ahead(e + 1);
        match take_flags(flags, &mut used, found.as_slice()) {
            None => return Ok(Err(Kind::FlagsShort)),
            Some(faces) => {
                put_by_many(&wrap, comps, e, faces.as_slice(), &mut values, &mut source)
            }
        }
    }
    Ok(Ok(values))
}
