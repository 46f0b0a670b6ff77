//! What a walk has visited, and the entries so far.

ghost use Rattle.std.specs.Prelude.{◌≡◌, ◌+◌, ◌*◌, ◌<◌, ◌++◌, ◌∷◌, [], true, IfOk, length, map, vec_len, get_or};
ghost use Rattle.corner_table.specs.Sides.{side_at};
ghost use Rattle.corner_table.specs.Labels.{label_at};
ghost use Rattle.corner_table.specs.Ordered.{at_corner, kept_face};
ghost use Rattle.walk_order.specs.Visits.{is_visited, is_new, with_entry, entered, unwalked};
ghost use Rattle.walk_order.specs.DepthFirst.{goes_right_alone};
ghost use Rattle.walk_order.specs.Stored.{new_mark, marked_entries, marked_walk, ordered_so_far, IsSurface, IsStored};

use crate::surface::Surface;
use corner_table::{FaceAcross, face_across};
use drc_base::Memory;
use std::alloc::Global;

/// Kept for a class without an entry that no free side meets.
pub(crate) const NEW: u32 = u32::MAX;

/// Kept for a class without an entry that a free side meets.
pub(crate) const NEW_AT_END: u32 = u32::MAX - 1;

/// Which faces are visited, the corners of the entries in order, for each class the number of its entry,
/// and for each entry the face across. There is room for an entry of each class.
#[derive(Drop)]
pub(crate) struct Marks {
    pub(crate) visited: Vec<bool>,
    pub(crate) entries: Vec<u32>,
    pub(crate) entry_of_class: Vec<u32>,
    pub(crate) faces_across: Vec<FaceAcross>,
}

/// What is kept for a class without an entry.
fn new_mark(ended: bool) -> u32
    ensures { result ≡ new_mark ended }
{
    if ended { NEW_AT_END } else { NEW }
}

/// What is kept for each class before the walk.
fn new_marks(alloc: Global, ends: &[bool]) -> Result<Vec<u32>, Memory>
    ensures { IfOk result (λ v. v.items ≡ map new_mark ends.now) }
{
    Ok(ends.iter().map(|ended| new_mark(*ended)).collect(alloc)?)
}

/// Nothing is visited.
pub(crate) fn no_marks(alloc: Global, s: &Surface<'_>) -> Result<Marks, Memory>
    requires { IsSurface s.now }
    ensures stored { IfOk result (λ m. IsStored s.now m) }
    ensures walk { IfOk result (λ m. marked_walk m ≡ unwalked s.now.faces) }
{
    let visited = vec![in alloc; false; s.faces as usize]?;
    let entries = Vec::with_capacity(alloc, s.ends.len())?;
    let entry_of_class = new_marks(alloc, s.ends)?;
    let faces_across = Vec::with_capacity(alloc, s.ends.len())?;
    Ok(Marks {
        visited,
        entries,
        entry_of_class,
        faces_across,
    })
}

impl Marks {
    /// Whether a face is visited.
    pub(crate) fn is_visited(&self, face: u32) -> bool
        requires { face < vec_len self.now.visited }
        ensures { result ≡ is_visited (marked_walk self.now) face }
    {
        self.visited[face as usize]
    }

    /// The number of a class's entry, or what is kept where it has none.
    fn mark_of(&self, class: u32) -> u32
        requires { class < vec_len self.now.entry_of_class }
        ensures { result ≡ get_or self.now.entry_of_class.items class 0 }
    {
        self.entry_of_class[class as usize]
    }

    /// Whether a corner's class is new.
    pub(crate) fn is_new(&self, s: &Surface<'_>, corner: u32) -> bool
        requires surface { IsSurface s.now }
        requires corner { corner < 3 * s.now.faces }
        requires stored { IsStored s.now self.now }
        ensures { result ≡ is_new s.now.labels.now (marked_entries self.now) (side_at corner) }
    {
        self.mark_of(s.class_of(corner)) >= NEW_AT_END
    }

    /// The face across the side of a corner, where there is one whose classes all have entries.
    #[inline(always)]
    fn face_across(&self, s: &Surface<'_>, corner: u32) -> FaceAcross
        requires surface { IsSurface s.now }
        requires corner { corner < 3 * s.now.faces }
        requires stored { IsStored s.now self.now }
        ensures { kept_face result ≡ at_corner (ordered_so_far s.now self.now) (length (marked_entries self.now)) (side_at corner) }
    {
        let next = self.entries.len();
        let table = self.entry_of_class.as_slice();
        FaceAcross::kept(face_across(s.across, s.labels, table, next, corner))
    }

    /// A class without an entry gets the next one, with the face across the side of its corner.
    #[inline(always)]
    fn give_entry(&mut self, s: &Surface<'_>, corner: u32, class: u32)
        requires surface { IsSurface s.now }
        requires corner { corner < 3 * s.now.faces }
        requires stored { IsStored s.now self.old }
        requires class { class ≡ label_at s.now.labels.now (side_at corner) }
        requires new { is_new s.now.labels.now (marked_entries self.old) (side_at corner) ≡ true }
        ensures stored { IsStored s.now self.new }
        ensures visited { self.new.visited ≡ self.old.visited }
        ensures entries { marked_entries self.new ≡ marked_entries self.old ++ (side_at corner ∷ []) }
    {
        let number = self.entries.len() as u32;
        let face = self.face_across(s, corner);
        self.entries.push_reserved(corner);
        self.faces_across.push_reserved(face);
        self.entry_of_class[class as usize] = number;
    }

    /// A corner becomes the next entry, if its class is new; what was kept for the class.
    #[inline(always)]
    fn take_entry(&mut self, s: &Surface<'_>, corner: u32) -> u32
        requires surface { IsSurface s.now }
        requires corner { corner < 3 * s.now.faces }
        requires stored { IsStored s.now self.old }
        ensures stored { IsStored s.now self.new }
        ensures visited { self.new.visited ≡ self.old.visited }
        ensures entries { marked_entries self.new ≡ with_entry s.now.labels.now (marked_entries self.old) (side_at corner) }
        ensures kept { result ≡ get_or self.old.entry_of_class.items (label_at s.now.labels.now (side_at corner)) 0 }
    {
        let class = s.class_of(corner);
        let kept = self.mark_of(class);
        if kept >= NEW_AT_END {
            self.give_entry(s, corner, class);
        }
        kept
    }

    /// A corner becomes the next entry, if its class is new.
    pub(crate) fn add_entry(&mut self, s: &Surface<'_>, corner: u32)
        requires surface { IsSurface s.now }
        requires corner { corner < 3 * s.now.faces }
        requires stored { IsStored s.now self.old }
        ensures stored { IsStored s.now self.new }
        ensures visited { self.new.visited ≡ self.old.visited }
        ensures entries { marked_entries self.new ≡ with_entry s.now.labels.now (marked_entries self.old) (side_at corner) }
    {
        self.take_entry(s, corner);
    }

    /// Enters the face of a corner; whether the depth-first walk goes right alone.
    #[inline(always)]
    pub(crate) fn enter(&mut self, s: &Surface<'_>, corner: u32) -> bool
        requires surface { IsSurface s.now }
        requires corner { corner < 3 * s.now.faces }
        requires stored { IsStored s.now self.old }
        ensures stored { IsStored s.now self.new }
        ensures walk { marked_walk self.new ≡ entered s.now.labels.now (marked_walk self.old) (side_at corner) }
        ensures alone { result ≡ goes_right_alone s.now.labels.now s.now.ends.now (marked_walk self.old) (side_at corner) }
    {
        let kept = self.take_entry(s, corner);
        self.visited[(corner / 3) as usize] = true;
        kept == NEW
    }
}
