//! Constrained multi-parallelogram prediction.

ghost use Rattle.std.specs.Prelude.{◌≡◌, ℕ, ℤ, suc, ◌+◌, ◌-◌, ◌*◌, ◌^◌, ◌<◌, ◌≤◌, ◌≤ℤ◌, ◌++◌, [], cond, nat_eq, List, Bool, length, take, drop, map, get_or, IfOk, IfSome, MatchOption, MatchResult};
ghost use Rattle.std.specs.List.{All};
ghost use Rattle.predict.specs.Wrap.{CanWrap, HasEnds, least_correction, greatest_correction};
ghost use Rattle.predict.specs.Restored.{restored, corrections};
ghost use Rattle.corner_table.specs.Ordered.{Ordered as AnyOrdered, IsBelow};
ghost use Rattle.predict.specs.Surfaces.{surface, IsOverTable};
ghost use Rattle.predict.specs.Gathered.{gathered};
ghost use Rattle.predict.specs.Multi.{by_many, kept, multi, wanted, flags_for, HasFlags, LacksFlags, AreMarked, marks, is_left_out};
ghost use Rattle.predict.specs.Entry.{Foretells, Corrected, AreUsed, LacksNext, ForetellsAll, flags_put};
ghost use Rattle.predict.specs.Stored.{IsOrderedSurface, ordered_in};

use crate::entry::correct_entry;
use crate::flags::{Flags, keep, marks_of};
use crate::orders::Ordered;
use crate::surface::{Surface, surface_of};
use crate::wraps::Wrap;
use arrayvec::ArrayVec;
use corner_table::FaceAcross;
use drc_base::{Memory, Sequence};
use std::alloc::Global;

/// A list of flags; it is empty where there is none.
fn list_at(flags: &Flags, k: usize) -> &[bool]
    ensures { result.now ≡ get_or flags.now.lists k [] }
{
    match flags.lists.as_slice().get(k) {
        None => &[],
        Some(list) => list.as_slice(),
    }
}

/// The faces of an entry that its flags keep; `used` has how many flags of each list are taken. None
/// where the list has too few.
pub(crate) fn take_flags(
    flags: &Flags,
    used: &mut [usize; 4],
    found: &[FaceAcross],
) -> Option<ArrayVec<FaceAcross, 4>>
    requires few { length found.now ≤ 4 }
    requires used { length used.old ≡ 4 }
    ensures long { length used.new ≡ 4 }
    ensures faces { (w : AnyOrdered) (e : ℕ) → found.now ≡ gathered w e → AreUsed w flags.now.lists e used.old → MatchOption result (LacksNext w flags.now.lists e) (λ faces. (faces.items ≡ kept (flags_for w flags.now.lists e) found.now) × AreUsed w flags.now.lists (suc e) used.new) }
    ensures few { IfSome result (λ faces. length faces.items ≤ 4) }
    ensures below { (e : ℕ) → All (IsBelow e) found.now → IfSome result (λ faces. All (IsBelow e) faces.items) }
{
    let count = found.len();
    if count == 0 {
        return Some(ArrayVec::new());
    }
    let list = list_at(flags, count - 1);
    let first = used[count - 1];
    if first > list.len() || list.len() - first < count {
        return None;
    }
    used[count - 1] = first + count;
    Some(keep(found, &list[first..first + count]))
}

/// Puts the flags of an entry behind those of its list.
fn put_marks(lists: &mut [Sequence<bool>; 4], marks: &[bool]) -> Result<(), Memory>
    requires few { length marks.now ≤ 4 }
    requires four { length lists.old ≡ 4 }
    ensures long { length lists.new ≡ 4 }
    ensures put { IfOk result (λ _. lists.new ≡ flags_put marks.now lists.old) }
{
    let count = marks.len();
    if count > 0 {
        lists[count - 1].append(marks)?;
    }
    Ok(())
}

/// Puts the corrections of all entries, and their flags.
fn correct_entries(
    w: &Wrap,
    comps: usize,
    surface: &Surface<'_>,
    v: &[i32],
    lists: &mut [Sequence<bool>; 4],
    out: &mut [i32],
) -> Result<(), Memory>
    requires some { 0 < comps }
    requires comps { comps < 2 ^ 32 }
    requires surface { IsOrderedSurface surface.now }
    requires whole { length v.now ≡ length surface.now.corners.now * comps }
    requires range { All (λ x. (w.now.low ≤ℤ x) × (x ≤ℤ w.now.high)) v.now }
    requires room { length out.old ≡ length v.now }
    requires four { length lists.old ≡ 4 }
    requires none { (k : ℕ) → k < 4 → get_or lists.old k [] ≡ [] }
    ensures long { length lists.new ≡ 4 }
    ensures marked { IfOk result (λ _. AreMarked (ordered_in surface.now) comps v.now lists.new (length surface.now.corners.now)) }
    ensures corrections { IfOk result (λ _. (f : List ℤ → ℤ) → ForetellsAll f (ordered_in surface.now) comps v.now (length surface.now.corners.now) → out.new ≡ corrections f w.now v.now) }
{
    for e in 0..surface.corners.len() {
        let found = surface.gather(e);
        let marks = marks_of(v, comps, e, found.as_slice());
        put_marks(lists, marks.as_slice())?;
        let faces = keep(found.as_slice(), marks.as_slice());
        correct_entry(w, v, comps, e, faces.as_slice(), out);
    }
    Ok(())
}

/// The flags of four lists.
fn flags_of(alloc: Global, lists: [Sequence<bool>; 4]) -> Result<Flags, Memory>
    ensures { IfOk result (λ f. f.lists ≡ lists) }
{
    let lists = Vec::from_array(alloc, lists)?;
    Ok(Flags {
        lists: Sequence::from_vec(lists),
    })
}

/// Puts the corrections of all entries, and answers their flags.
fn correct_with_flags(
    alloc: Global,
    w: &Wrap,
    comps: usize,
    surface: &Surface<'_>,
    v: &[i32],
    out: &mut [i32],
) -> Result<Flags, Memory>
    requires some { 0 < comps }
    requires comps { comps < 2 ^ 32 }
    requires surface { IsOrderedSurface surface.now }
    requires whole { length v.now ≡ length surface.now.corners.now * comps }
    requires range { All (λ x. (w.now.low ≤ℤ x) × (x ≤ℤ w.now.high)) v.now }
    requires room { length out.old ≡ length v.now }
    requires can_wrap { CanWrap w.now }
    requires ends { HasEnds w.now }
    ensures four { IfOk result (λ x. length x.lists ≡ 4) }
    ensures flags { IfOk result (λ x. AreMarked (ordered_in surface.now) comps v.now x.lists (length surface.now.corners.now)) }
    ensures enough { IfOk result (λ x. HasFlags (ordered_in surface.now) x.lists) }
    ensures corrections { IfOk result (λ x. out.new ≡ corrections (multi (ordered_in surface.now) comps x.lists) w.now v.now) }
    ensures restores { IfOk result (λ x. restored (multi (ordered_in surface.now) comps x.lists) w.now out.new ≡ v.now) }
    ensures small { IfOk result (λ x. All (λ c. (least_correction w.now ≤ℤ c) × (c ≤ℤ greatest_correction w.now)) out.new) }
{
    let mut lists = [
        Sequence::from_vec(Vec::new(alloc)),
        Sequence::from_vec(Vec::new(alloc)),
        Sequence::from_vec(Vec::new(alloc)),
        Sequence::from_vec(Vec::new(alloc)),
    ];
    correct_entries(w, comps, surface, v, &mut lists, out)?;
    let flags = flags_of(alloc, lists)?;
    Ok(flags)
}

/// The corrections of the values `v` of entries of `comps` components, each predicted by the mean of
/// those parallelograms that its flags keep, and the flags: each correction is of at most half a span,
/// and from both the values are restored. A flag is set, and leaves its parallelogram out, exactly
/// where the entry before is nearer to the entry, by the sums of the distances of their components.
/// `v` has `comps` values for each entry of the ordered surface. It takes memory for the corrections and
/// the flags, and fails only when out of memory.
pub fn correct_multi(
    alloc: Global,
    w: &Wrap,
    comps: u32,
    on: &Ordered<'_>,
    v: &[i32],
) -> Result<(Vec<i32>, Flags), Memory>
    requires some { 0 < comps }
    requires over { IsOverTable on.now }
    requires whole { length v.now ≡ length on.now.order.now.corner_of_entry * comps }
    requires within { All (λ x. (w.now.low ≤ℤ x) × (x ≤ℤ w.now.high)) v.now }
    ensures four { IfOk result (λ c. length c.1.lists ≡ 4) }
    ensures flags { IfOk result (λ c. AreMarked (surface on.now) comps v.now c.1.lists (length on.now.order.now.corner_of_entry)) }
    ensures enough { IfOk result (λ c. HasFlags (surface on.now) c.1.lists) }
    ensures corrections { IfOk result (λ c. c.0.items ≡ corrections (multi (surface on.now) comps c.1.lists) w.now v.now) }
    ensures restores { IfOk result (λ c. restored (multi (surface on.now) comps c.1.lists) w.now c.0.items ≡ v.now) }
    ensures small { IfOk result (λ c. All (λ x. (least_correction w.now ≤ℤ x) × (x ≤ℤ greatest_correction w.now)) c.0.items) }
{
    let wrap = w.copy();
    let surface = surface_of(on);
    let mut out = vec![in alloc; 0i32; v.len()]?;
    let flags = correct_with_flags(
        alloc,
        &wrap,
        comps as usize,
        &surface,
        v,
        out.as_mut_slice(),
    )?;
    Ok((out, flags))
}
