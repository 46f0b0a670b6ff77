//! The faces round the vertex of an entry, over which parallelograms predict it.

ghost use Rattle.std.specs.Prelude.{◌≡◌, ℕ, ◌*◌, ◌<◌, ◌≤◌, ◌++◌, IfSome, Some, length};
ghost use Rattle.std.specs.List.{All};
ghost use Rattle.std.specs.Option.{option_map, option_to_list};
ghost use Rattle.corner_table.specs.Sides.{Side, Gluing, next, prev, side_at};
ghost use Rattle.corner_table.specs.Table.{free_entry};
ghost use Rattle.corner_table.specs.Ordered.{IsBelow, corner_at, at_corner};
ghost use Rattle.predict.specs.Gathered.{gathered, turn_on, rightwards, leftwards_from};
ghost use Rattle.predict.specs.Stored.{IsOrderedSurface, IsTurn, ordered_in, stored_turn};

use crate::surface::Surface;
use arrayvec::ArrayVec;
use corner_table::{FaceAcross, next_number, previous_number};

/// A corner that is met on the way round a vertex, whether the way goes on to the left, and the side across
/// which it does: the one after the corner, or to the right the one before it.
#[derive(Clone, Copy, Debug)]
pub(crate) struct Turn {
    pub(crate) at: u32,
    pub(crate) across: u32,
    pub(crate) leftwards: bool,
}

/// The turn at the corner after a side, where that isn't the start again.
#[inline(always)]
fn left_behind(start: u32, side: u32) -> Option<Turn>
    requires side { side < free_entry }
    ensures turn { (g : Gluing) → option_map stored_turn result ≡ leftwards_from g (side_at start) (Some (next (side_at side))) }
    ensures good { (n : ℕ) → side < 3 * n → IfSome result (IsTurn (3 * n)) }
{
    let at = next_number(side);
    if at == start {
        None
    } else {
        Some(Turn {
            at,
            across: previous_number(side),
            leftwards: true,
        })
    }
}

impl Surface<'_> {
    /// The turn at the next corner to the right, across the side before a corner.
    #[inline(always)]
    fn right_across(&self, before: u32) -> Option<Turn>
        requires surface { IsOrderedSurface self.now }
        requires side { before < length self.now.labels.now }
        ensures turn { (c : Side) → side_at before ≡ prev c → option_map stored_turn result ≡ rightwards (ordered_in self.now).gluing c }
        ensures good { IfSome result (IsTurn (length self.now.labels.now)) }
    {
        match self.across_of(before) {
            None => None,
            Some(side) => Some(Turn {
                at: previous_number(side),
                across: next_number(side),
                leftwards: false,
            }),
        }
    }

    /// What comes after a corner on the way round from `start`.
    fn turn_on(&self, start: u32, turn: Turn) -> Option<Turn>
        requires surface { IsOrderedSurface self.now }
        requires start { start < length self.now.labels.now }
        requires good { IsTurn (length self.now.labels.now) turn }
        ensures turn { option_map stored_turn result ≡ turn_on (ordered_in self.now).gluing (side_at start) (stored_turn turn) }
        ensures good { IfSome result (IsTurn (length self.now.labels.now)) }
    {
        if turn.leftwards {
            match self.across_of(turn.across) {
                None => self.right_across(previous_number(start)),
                Some(side) => left_behind(start, side),
            }
        } else {
            self.right_across(turn.across)
        }
    }

    /// Adds the face across the side of a corner to those found, where entry `e` can be predicted
    /// from it.
    fn gather_corner(&self, e: usize, corner: u32, found: &mut ArrayVec<FaceAcross, 4>)
        requires surface { IsOrderedSurface self.now }
        requires corner { corner < length self.now.labels.now }
        requires room { length found.old.items < 4 }
        ensures { found.new.items ≡ found.old.items ++ option_to_list (at_corner (ordered_in self.now) e (side_at corner)) }
    {
        match self.at_corner(e, corner) {
            None => {}
            Some(face) => found.push(face),
        }
    }

    /// The first four faces round the vertex of entry `e` from which it can be predicted.
    pub(crate) fn gather(&self, e: usize) -> ArrayVec<FaceAcross, 4>
        requires surface { IsOrderedSurface self.now }
        requires entry { e < length self.now.corners.now }
        ensures faces { result.items ≡ gathered (ordered_in self.now) e }
        ensures below { All (IsBelow e) result.items }
        ensures few { length result.items ≤ 4 }
    {
        let start = self.corner_of(e);
        let mut found = ArrayVec::new();
        let mut turn = Some(Turn {
            at: start,
            across: next_number(start),
            leftwards: true,
        });
        for step in 0..self.labels.len() {
            match turn {
                None => return found,
                Some(now) => {
                    self.gather_corner(e, now.at, &mut found);
                    if found.len() == 4 {
                        return found;
                    }
                    turn = self.turn_on(start, now);
                }
            }
        }
        found
    }

    /// What is gathered for entry `e`, and nothing behind the last entry.
    #[inline(always)]
    pub(crate) fn gather_ahead(&self, e: usize) -> ArrayVec<FaceAcross, 4>
        requires surface { IsOrderedSurface self.now }
        ensures faces { e < length self.now.corners.now → result.items ≡ gathered (ordered_in self.now) e }
        ensures below { All (IsBelow e) result.items }
        ensures few { length result.items ≤ 4 }
    {
        if e < self.corners.len() {
            self.gather(e)
        } else {
            ArrayVec::new()
        }
    }
}
