//! Restoring values from a source of corrections without flags: each value is put behind those before it, which foretell it, so
//! that no list of corrections is made.

ghost use Rattle.std.specs.Prelude.{◌≡◌, ℕ, ℤ, ◌+◌, ◌*◌, ◌%◌, ◌<◌, ◌≤◌, List, Some, None, length, IfOk, IfSome, vec_len, vec_capacity};
ghost use Rattle.corner_table.specs.Ordered.{IsBelow, kept_face};
ghost use Rattle.predict.specs.Restored.{restored, restored_behind, entry_before};
ghost use Rattle.predict.specs.Parallelogram.{by_one, parallelogram};
ghost use Rattle.predict.specs.Entry.{Foretells};
ghost use Rattle.predict.specs.Surfaces.{surface, IsOverTable};

use crate::orders::Ordered;
use crate::parallelograms::fourth;
use crate::sources::CorrectionSource;
use crate::wraps::Wrap;
use corner_table::{FREE, FaceAcross};
use drc_base::Memory;
use std::alloc::Global;

/// What the difference foretells behind these values: the same component of the entry before, and 0 in
/// the first entry.
#[inline(always)]
fn value_before(values: &[i32], comps: usize) -> i32
    requires { 0 < comps }
    ensures { result ≡ entry_before comps values.now }
{
    let n = values.len();
    if n < comps { 0 } else { values[n - comps] }
}

/// Puts the value of the next correction behind the others, from what is foretold of it.
#[inline(always)]
pub(crate) fn put_value<C: CorrectionSource>(
    w: &Wrap,
    foretold: i32,
    values: &mut Vec<i32>,
    source: &mut C,
)
    requires some { 0 < length (C.left source.old) }
    requires room { vec_len values.old < vec_capacity values.old }
    ensures values { (f : List ℤ → ℤ) → f values.old.items ≡ foretold
        → restored_behind f w.now values.new.items (C.left source.new) ≡ restored_behind f w.now values.old.items (C.left source.old) }
    ensures left { length (C.left source.old) ≡ length (C.left source.new) + 1 }
    ensures len { vec_len values.new ≡ vec_len values.old + 1 }
    ensures capacity { vec_capacity values.new ≡ vec_capacity values.old }
{
    let value = w.restored(foretold, source.next());
    values.push_reserved(value);
}

/// Puts the values of entry `e`, foretold by the entry before.
#[inline(always)]
pub(crate) fn put_by_difference<C: CorrectionSource>(
    w: &Wrap,
    comps: usize,
    e: usize,
    values: &mut Vec<i32>,
    source: &mut C,
)
    requires some { 0 < comps }
    requires here { vec_len values.old ≡ e * comps }
    requires room { vec_len values.old + comps ≤ vec_capacity values.old }
    requires enough { comps ≤ length (C.left source.old) }
    ensures values { (f : List ℤ → ℤ) → Foretells f comps e (by_one comps None)
        → restored_behind f w.now values.new.items (C.left source.new) ≡ restored_behind f w.now values.old.items (C.left source.old) }
    ensures left { length (C.left source.old) ≡ length (C.left source.new) + comps }
    ensures len { vec_len values.new ≡ vec_len values.old + comps }
    ensures capacity { vec_capacity values.new ≡ vec_capacity values.old }
{
    for _j in 0..comps {
        let foretold = value_before(values.as_slice(), comps);
        put_value(w, foretold, values, source);
    }
}

/// Puts the values of entry `e`, foretold by the parallelogram over a face.
#[inline(always)]
fn put_by_parallelogram<C: CorrectionSource>(
    w: &Wrap,
    comps: usize,
    e: usize,
    face: FaceAcross,
    values: &mut Vec<i32>,
    source: &mut C,
)
    requires below { IsBelow e face }
    requires here { vec_len values.old ≡ e * comps }
    requires room { vec_len values.old + comps ≤ vec_capacity values.old }
    requires enough { comps ≤ length (C.left source.old) }
    ensures values { (f : List ℤ → ℤ) → Foretells f comps e (by_one comps (Some face))
        → restored_behind f w.now values.new.items (C.left source.new) ≡ restored_behind f w.now values.old.items (C.left source.old) }
    ensures left { length (C.left source.old) ≡ length (C.left source.new) + comps }
    ensures len { vec_len values.new ≡ vec_len values.old + comps }
    ensures capacity { vec_capacity values.new ≡ vec_capacity values.old }
{
    for j in 0..comps {
        let foretold = fourth(values.as_slice(), comps, e, face, j);
        put_value(w, foretold, values, source);
    }
}

/// Puts the values of entry `e`, foretold by the parallelogram over the face across that is kept for it,
/// else by the entry before.
#[inline(always)]
fn put_entry<C: CorrectionSource>(
    w: &Wrap,
    comps: usize,
    e: usize,
    face: FaceAcross,
    values: &mut Vec<i32>,
    source: &mut C,
)
    requires some { 0 < comps }
    requires below { IfSome (kept_face face) (IsBelow e) }
    requires here { vec_len values.old ≡ e * comps }
    requires room { vec_len values.old + comps ≤ vec_capacity values.old }
    requires enough { comps ≤ length (C.left source.old) }
    ensures values { (f : List ℤ → ℤ) → Foretells f comps e (by_one comps (kept_face face))
        → restored_behind f w.now values.new.items (C.left source.new) ≡ restored_behind f w.now values.old.items (C.left source.old) }
    ensures left { length (C.left source.old) ≡ length (C.left source.new) + comps }
    ensures len { vec_len values.new ≡ vec_len values.old + comps }
    ensures capacity { vec_capacity values.new ≡ vec_capacity values.old }
{
    if face.across == FREE {
        put_by_difference(w, comps, e, values, source);
    } else {
        put_by_parallelogram(w, comps, e, face, values, source);
    }
}

/// The values that corrections restore, each foretold by the entry before.
#[inline(always)]
pub(crate) fn by_difference<C: CorrectionSource>(
    alloc: Global,
    w: &Wrap,
    comps: usize,
    source: C,
) -> Result<Vec<i32>, Memory>
    requires some { 0 < comps }
    ensures values { IfOk result (λ v. v.items ≡ restored (entry_before comps) w.now (C.left source)) }
    ensures len { IfOk result (λ v. length v.items ≡ length (C.left source)) }
{
    let wrap = w.copy();
    let mut source = source;
    let n = source.len();
    let mut values = Vec::with_capacity(alloc, n)?;
    for _i in 0..n {
        let foretold = value_before(values.as_slice(), comps);
        put_value(&wrap, foretold, &mut values, &mut source);
    }
    Ok(values)
}

/// The values that corrections restore, each foretold by the parallelogram over the face across that the
/// order keeps for its entry.
#[inline(always)]
pub(crate) fn by_parallelogram<C: CorrectionSource>(
    alloc: Global,
    w: &Wrap,
    comps: usize,
    on: &Ordered<'_>,
    source: C,
) -> Result<Vec<i32>, Memory>
    requires some { 0 < comps }
    requires over { IsOverTable on.now }
    requires whole { length (C.left source) ≡ length on.now.order.now.corner_of_entry * comps }
    ensures values { IfOk result (λ v. v.items ≡ restored (parallelogram (surface on.now) comps) w.now (C.left source)) }
    ensures len { IfOk result (λ v. length v.items ≡ length (C.left source)) }
{
    let wrap = w.copy();
    let mut source = source;
    let faces = on.order.faces_across.as_slice();
    let n = source.len();
    let mut values = Vec::with_capacity(alloc, n)?;
    for e in 0..faces.len() {
        put_entry(&wrap, comps, e, faces[e], &mut values, &mut source);
    }
    Ok(values)
}
