//! The depth-first walk.
//!
//! From a corner the walk enters a face and goes on to the right; the corner to the left, where the
//! walk comes back to it, waits on a stack. Where a face is visited or there is none, the last corner
//! that waits is next.

ghost use Rattle.std.specs.Prelude.{◌≡◌, ℕ, ◌*◌, ◌<◌, All, IfOk, IfSome, OnOk, Some, vec_len, map, reverse};
ghost use Rattle.std.specs.Option.{option_map};
ghost use Rattle.corner_table.specs.Sides.{side_at};
ghost use Rattle.corner_table.specs.Labels.{IsLabelled};
ghost use Rattle.corner_table.specs.Table.{gluing_of};
ghost use Rattle.corner_table.specs.Ordered.{IsOrdered};
ghost use Rattle.walk_order.specs.DepthFirst.{walk, walked_from, depth_walked, depth_first_order};
ghost use Rattle.walk_order.specs.Orders.{corners_in, IsOrderOf};
ghost use Rattle.walk_order.specs.Stored.{gluing_in, marked_walk, before, turn_step, IsSurface, IsStored};

use crate::marks::{Marks, no_marks};
use crate::orders::order_of;
use crate::surface::{Surface, surface_of};
use corner_table::{Classes, Order, SideTable, next_number, previous_number};
use drc_base::Memory;
use std::alloc::Global;

/// A corner waits, if there is one.
#[inline(always)]
fn keep(stack: &mut Vec<u32>, corner: Option<u32>) -> Result<(), Memory>
    ensures kept { OnOk result (map side_at (reverse stack.new.items) ≡ before (option_map side_at corner) (map side_at (reverse stack.old.items))) }
    ensures within { OnOk result ((corners : ℕ) → IfSome corner (λ n. n < corners) → All (λ (k : ℕ). k < corners) stack.old.items → All (λ (k : ℕ). k < corners) stack.new.items) }
{
    match corner {
        None => {}
        Some(n) => stack.push(n)?,
    }
    Ok(())
}

/// One turn at a corner; the corner to go on at.
#[inline(always)]
fn visit(
    s: &Surface<'_>,
    marks: &mut Marks,
    stack: &mut Vec<u32>,
    at: u32,
) -> Result<Option<u32>, Memory>
    requires surface { IsSurface s.now }
    requires corner { at < 3 * s.now.faces }
    requires stored { IsStored s.now marks.old }
    requires stack { All (λ (k : ℕ). k < 3 * s.now.faces) stack.old.items }
    ensures stored { OnOk result (IsStored s.now marks.new) }
    ensures stack { OnOk result (All (λ (k : ℕ). k < 3 * s.now.faces) stack.new.items) }
    ensures within { IfOk result (λ next. IfSome next (λ n. n < 3 * s.now.faces)) }
    ensures turn { IfOk result (λ next. turn_step (gluing_in s.now) s.now.labels.now s.now.ends.now (marked_walk marks.old) (map side_at (reverse stack.old.items)) (side_at at) ≡ (marked_walk marks.new, map side_at (reverse stack.new.items), option_map side_at next)) }
{
    if marks.is_visited(at / 3) {
        return Ok(None);
    }
    let alone = marks.enter(s, at);
    if !alone {
        keep(stack, s.across_of(previous_number(at)))?;
    }
    Ok(s.across_of(next_number(at)))
}

/// The walk from a corner.
#[inline(always)]
fn walk_on(
    s: &Surface<'_>,
    marks: &mut Marks,
    stack: &mut Vec<u32>,
    start: u32,
) -> Result<(), Memory>
    requires surface { IsSurface s.now }
    requires corner { start < 3 * s.now.faces }
    requires stored { IsStored s.now marks.old }
    requires empty { vec_len stack.old ≡ 0 }
    ensures stored { OnOk result (IsStored s.now marks.new) }
    ensures empty { OnOk result (vec_len stack.new ≡ 0) }
    ensures walk { OnOk result (marked_walk marks.new ≡ walk (gluing_in s.now) s.now.labels.now s.now.ends.now s.now.faces (marked_walk marks.old) (Some (side_at start))) }
{
    let mut at = start;
    'walking: loop {
        match visit(s, marks, stack, at)? {
            Some(next) => at = next,
            None => match stack.pop() {
                Some(last) => at = last,
                None => return Ok(()),
            },
        }
    }
}

/// The walk of a face.
fn walk_from(
    s: &Surface<'_>,
    marks: &mut Marks,
    stack: &mut Vec<u32>,
    face: u32,
) -> Result<(), Memory>
    requires surface { IsSurface s.now }
    requires face { face < s.now.faces }
    requires stored { IsStored s.now marks.old }
    requires empty { vec_len stack.old ≡ 0 }
    ensures stored { OnOk result (IsStored s.now marks.new) }
    ensures empty { OnOk result (vec_len stack.new ≡ 0) }
    ensures walk { OnOk result (marked_walk marks.new ≡ walked_from s.now.faces (gluing_in s.now) s.now.labels.now s.now.ends.now face (marked_walk marks.old)) }
{
    if marks.is_visited(face) {
        return Ok(());
    }
    marks.add_entry(s, 3 * face + 1);
    marks.add_entry(s, 3 * face + 2);
    walk_on(s, marks, stack, 3 * face)?;
    Ok(())
}

/// The walks of all faces.
fn walk_all(alloc: Global, s: &Surface<'_>) -> Result<Marks, Memory>
    requires { IsSurface s.now }
    ensures stored { IfOk result (λ m. IsStored s.now m) }
    ensures walk { IfOk result (λ m. marked_walk m ≡ depth_walked s.now.faces (gluing_in s.now) s.now.labels.now s.now.ends.now s.now.faces) }
{
    let mut marks = no_marks(alloc, s)?;
    let mut stack = Vec::new(alloc);
    for face in 0..s.faces {
        walk_from(s, &mut marks, &mut stack, face)?;
    }
    Ok(marks)
}

/// The depth-first order of a surface's classes (Draco Bitstream Specification 2.2, depth-first
/// traversal). For each face in order that isn't visited, the classes of its corners 1 and 2, where
/// they have no entry, become entries with these corners, and the face is walked from its corner 0: the
/// face of a corner is visited, and the corner's class, where it has no entry, becomes the next one
/// with this corner; the walk goes on at the corner across the side after it, and after all that this
/// leads to at the corner across the side before it. To the right alone it goes from a corner whose
/// class was new and that no free side meets. Each class has one entry, the entry of each corner is of
/// the corner's class, and for each entry the face across the side of its corner is kept, where there is
/// one whose entries all come before. Takes memory in proportion to the faces and the classes, and fails
/// only when out of memory.
pub fn depth_first(alloc: Global, t: &SideTable, c: &Classes) -> Result<Order, Memory>
    requires { IsLabelled t.now.faces (gluing_of t.now) c.now.of_corner c.now.count c.now.ends }
    ensures entries { IfOk result (λ o. corners_in o ≡ depth_first_order t.now.faces (gluing_of t.now) c.now.of_corner c.now.ends) }
    ensures classes { IfOk result (λ o. IsOrderOf t.now.faces c.now.of_corner c.now.count o) }
    ensures ordered { IfOk result (λ o. IsOrdered t.now c.now.of_corner o) }
{
    let s = surface_of(t, c);
    let marks = walk_all(alloc, &s)?;
    Ok(order_of(&s, marks))
}
