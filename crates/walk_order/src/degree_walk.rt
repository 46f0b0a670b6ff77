//! The walk by prediction degree.
//!
//! From a corner the walk enters a face. The corners across to the left and to the right, whose faces are
//! unvisited, are rated. The walk goes on at the last of them if its rate is no more than the number of the
//! best stack, and else puts it on the stack of its rate and takes the next corner off the first stack
//! that has one of an unvisited face.

ghost use Rattle.std.specs.Prelude.{◌≡◌, ℕ, ◌*◌, ◌<◌, All, IfOk, IfSome, OnOk, length, map, reverse};
ghost use Rattle.std.specs.Option.{option_map};
ghost use Rattle.corner_table.specs.Sides.{side_at};
ghost use Rattle.corner_table.specs.Labels.{IsLabelled};
ghost use Rattle.corner_table.specs.Table.{gluing_of};
ghost use Rattle.corner_table.specs.Ordered.{IsOrdered};
ghost use Rattle.walk_order.specs.PredictionDegree.{rate, rated, ranked_pushed, take_unvisited, taken2, taken1, taken0, ranked_taken, unvisited_across, turned_to, ranked_turned, ranked_visit, visits, ranked_from, ranked, unranked, prediction_degree_order};
ghost use Rattle.walk_order.specs.Orders.{corners_in, IsOrderOf};
ghost use Rattle.walk_order.specs.Stored.{gluing_in, marked_walk, IsSurface, IsStored};
ghost use Rattle.walk_order.specs.Ranking.{ranked_of, IsRanked};

use crate::marks::{Marks, no_marks};
use crate::orders::order_of;
use crate::surface::{Surface, surface_of};
use corner_table::{Classes, Order, SideTable, next_number, previous_number};
use drc_base::Memory;
use std::alloc::Global;

/// A walk with its ratings: which classes were rated, and the corners that wait by their rates.
#[derive(Drop)]
pub(crate) struct Ranks {
    pub(crate) marks: Marks,
    pub(crate) rated: Vec<bool>,
    pub(crate) stack0: Vec<u32>,
    pub(crate) stack1: Vec<u32>,
    pub(crate) stack2: Vec<u32>,
    pub(crate) best: u8,
}

/// Takes corners off a stack, up to and with the first of an unvisited face.
fn take_unvisited(s: &Surface<'_>, marks: &Marks, stack: &mut Vec<u32>) -> Option<u32>
    requires stored { IsStored s.now marks.now }
    requires within { All (λ (k : ℕ). k < 3 * s.now.faces) stack.old.items }
    ensures taken { (map side_at (reverse stack.new.items), option_map side_at result) ≡ take_unvisited (marked_walk marks.now) (map side_at (reverse stack.old.items)) }
    ensures rest { All (λ (k : ℕ). k < 3 * s.now.faces) stack.new.items }
    ensures within { IfSome result (λ n. n < 3 * s.now.faces) }
{
    'taking: loop {
        match stack.pop() {
            None => return None,
            Some(corner) => {
                if !marks.is_visited(corner / 3) {
                    return Some(corner);
                }
            }
        }
    }
}

/// Nothing is visited, rated or waiting.
fn no_ranks(alloc: Global, s: &Surface<'_>) -> Result<Ranks, Memory>
    requires { IsSurface s.now }
    ensures stored { IfOk result (λ r. IsRanked s.now r) }
    ensures ranked { IfOk result (λ r. ranked_of r ≡ unranked s.now.faces (length s.now.ends.now)) }
{
    Ok(Ranks {
        marks: no_marks(alloc, s)?,
        rated: vec![in alloc; false; s.ends.len()]?,
        stack0: Vec::new(alloc),
        stack1: Vec::new(alloc),
        stack2: Vec::new(alloc),
        best: 0,
    })
}

impl Ranks {
    /// Rates a corner: 0 where its class has an entry, 1 where it was rated before, else 2.
    fn rate(&mut self, s: &Surface<'_>, corner: u32) -> u8
        requires surface { IsSurface s.now }
        requires corner { corner < 3 * s.now.faces }
        requires stored { IsRanked s.now self.old }
        ensures stored { IsRanked s.now self.new }
        ensures rate { result ≡ rate s.now.labels.now (ranked_of self.old) (side_at corner) }
        ensures ranked { ranked_of self.new ≡ rated s.now.labels.now (ranked_of self.old) (side_at corner) }
    {
        if !self.marks.is_new(s, corner) {
            return 0;
        }
        let class = s.class_of(corner) as usize;
        let before = self.rated[class];
        self.rated[class] = true;
        if before { 1 } else { 2 }
    }

    /// Puts a corner on the stack of its rate.
    fn push(&mut self, s: &Surface<'_>, rate: u8, corner: u32) -> Result<(), Memory>
        requires corner { corner < 3 * s.now.faces }
        requires stored { IsRanked s.now self.old }
        ensures stored { OnOk result (IsRanked s.now self.new) }
        ensures ranked { OnOk result (ranked_of self.new ≡ ranked_pushed rate (side_at corner) (ranked_of self.old)) }
    {
        // For the prover alone: the number of faces is within its range.
        let _ = &s.faces;
        match rate {
            0 => {
                self.stack0.push(corner)?;
                self.best = 0;
                Ok(())
            }
            1 => {
                self.stack1.push(corner)?;
                self.best = self.best.min(1);
                Ok(())
            }
            _ => {
                self.stack2.push(corner)?;
                self.best = self.best.min(2);
                Ok(())
            }
        }
    }

    /// The next corner off stack 2.
    fn take2(&mut self, s: &Surface<'_>) -> Option<u32>
        requires stored { IsRanked s.now self.old }
        ensures stored { IsRanked s.now self.new }
        ensures within { IfSome result (λ n. n < 3 * s.now.faces) }
        ensures taken { (ranked_of self.new, option_map side_at result) ≡ taken2 (ranked_of self.old) }
    {
        self.best = 2;
        take_unvisited(s, &self.marks, &mut self.stack2)
    }

    /// The next corner off stack 1, or off stack 2 where there is none.
    fn take1(&mut self, s: &Surface<'_>) -> Option<u32>
        requires stored { IsRanked s.now self.old }
        ensures stored { IsRanked s.now self.new }
        ensures within { IfSome result (λ n. n < 3 * s.now.faces) }
        ensures taken { (ranked_of self.new, option_map side_at result) ≡ taken1 (ranked_of self.old) }
    {
        match take_unvisited(s, &self.marks, &mut self.stack1) {
            None => self.take2(s),
            Some(corner) => {
                self.best = 1;
                Some(corner)
            }
        }
    }

    /// The next corner off stack 0, or off the stacks after it where there is none.
    fn take0(&mut self, s: &Surface<'_>) -> Option<u32>
        requires stored { IsRanked s.now self.old }
        ensures stored { IsRanked s.now self.new }
        ensures within { IfSome result (λ n. n < 3 * s.now.faces) }
        ensures taken { (ranked_of self.new, option_map side_at result) ≡ taken0 (ranked_of self.old) }
    {
        match take_unvisited(s, &self.marks, &mut self.stack0) {
            None => self.take1(s),
            Some(corner) => {
                self.best = 0;
                Some(corner)
            }
        }
    }

    /// The next corner of an unvisited face, off the first stack from the best on that has one.
    fn take(&mut self, s: &Surface<'_>) -> Option<u32>
        requires stored { IsRanked s.now self.old }
        ensures stored { IsRanked s.now self.new }
        ensures within { IfSome result (λ n. n < 3 * s.now.faces) }
        ensures taken { (ranked_of self.new, option_map side_at result) ≡ ranked_taken (ranked_of self.old) }
    {
        match self.best {
            0 => self.take0(s),
            1 => self.take1(s),
            _ => self.take2(s),
        }
    }

    /// The corner across a side, where its face is unvisited.
    fn unvisited_across(&self, s: &Surface<'_>, side: u32) -> Option<u32>
        requires surface { IsSurface s.now }
        requires side { side < 3 * s.now.faces }
        requires stored { IsRanked s.now self.now }
        ensures corner { option_map side_at result ≡ unvisited_across (marked_walk self.now.marks) (gluing_in s.now (side_at side)) }
        ensures within { IfSome result (λ n. n < 3 * s.now.faces) }
    {
        match s.across_of(side) {
            None => None,
            Some(corner) => {
                if self.marks.is_visited(corner / 3) {
                    None
                } else {
                    Some(corner)
                }
            }
        }
    }

    /// Where the walk goes on, with at most one corner across.
    fn turn_to(&mut self, s: &Surface<'_>, corner: Option<u32>) -> Result<Option<u32>, Memory>
        requires surface { IsSurface s.now }
        requires corner { IfSome corner (λ n. n < 3 * s.now.faces) }
        requires stored { IsRanked s.now self.old }
        ensures stored { OnOk result (IsRanked s.now self.new) }
        ensures within { IfOk result (λ next. IfSome next (λ n. n < 3 * s.now.faces)) }
        ensures turned { IfOk result (λ next. (ranked_of self.new, option_map side_at next) ≡ turned_to s.now.labels.now (ranked_of self.old) (option_map side_at corner)) }
    {
        match corner {
            None => Ok(self.take(s)),
            Some(n) => {
                let rate = self.rate(s, n);
                if rate <= self.best {
                    Ok(Some(n))
                } else {
                    self.push(s, rate, n)?;
                    Ok(self.take(s))
                }
            }
        }
    }

    /// Where the walk goes on, with the corners across to the left and to the right.
    fn turn(
        &mut self,
        s: &Surface<'_>,
        left: Option<u32>,
        right: Option<u32>,
    ) -> Result<Option<u32>, Memory>
        requires surface { IsSurface s.now }
        requires left { IfSome left (λ n. n < 3 * s.now.faces) }
        requires right { IfSome right (λ n. n < 3 * s.now.faces) }
        requires stored { IsRanked s.now self.old }
        ensures stored { OnOk result (IsRanked s.now self.new) }
        ensures within { IfOk result (λ next. IfSome next (λ n. n < 3 * s.now.faces)) }
        ensures turned { IfOk result (λ next. (ranked_of self.new, option_map side_at next) ≡ ranked_turned s.now.labels.now (ranked_of self.old) (option_map side_at left) (option_map side_at right)) }
    {
        match left {
            None => self.turn_to(s, right),
            Some(n) => match right {
                None => self.turn_to(s, Some(n)),
                Some(m) => {
                    let rate = self.rate(s, n);
                    self.push(s, rate, n)?;
                    self.turn_to(s, Some(m))
                }
            },
        }
    }

    /// Enters the face of a corner, and answers where the walk goes on.
    fn visit(&mut self, s: &Surface<'_>, at: u32) -> Result<Option<u32>, Memory>
        requires surface { IsSurface s.now }
        requires corner { at < 3 * s.now.faces }
        requires stored { IsRanked s.now self.old }
        ensures stored { OnOk result (IsRanked s.now self.new) }
        ensures within { IfOk result (λ next. IfSome next (λ n. n < 3 * s.now.faces)) }
        ensures visit { IfOk result (λ next. (ranked_of self.new, option_map side_at next) ≡ ranked_visit (gluing_in s.now) s.now.labels.now (ranked_of self.old) (side_at at)) }
    {
        self.marks.enter(s, at);
        let left = self.unvisited_across(s, previous_number(at));
        let right = self.unvisited_across(s, next_number(at));
        self.turn(s, left, right)
    }

    /// The walk from a corner.
    fn visits(&mut self, s: &Surface<'_>, start: u32) -> Result<(), Memory>
        requires surface { IsSurface s.now }
        requires corner { start < 3 * s.now.faces }
        requires stored { IsRanked s.now self.old }
        ensures stored { OnOk result (IsRanked s.now self.new) }
        ensures visits { OnOk result (ranked_of self.new ≡ visits (gluing_in s.now) s.now.labels.now s.now.faces (ranked_of self.old) (side_at start)) }
    {
        let mut at = start;
        for turn in 0..s.faces {
            match self.visit(s, at)? {
                None => return Ok(()),
                Some(next) => at = next,
            }
        }
        Ok(())
    }

    /// The walk of a face.
    fn walk_from(&mut self, s: &Surface<'_>, face: u32) -> Result<(), Memory>
        requires surface { IsSurface s.now }
        requires face { face < s.now.faces }
        requires stored { IsRanked s.now self.old }
        ensures stored { OnOk result (IsRanked s.now self.new) }
        ensures ranked { OnOk result (ranked_of self.new ≡ ranked_from s.now.faces (gluing_in s.now) s.now.labels.now face (ranked_of self.old)) }
    {
        if self.marks.is_visited(face) {
            return Ok(());
        }
        self.marks.add_entry(s, 3 * face + 1);
        self.marks.add_entry(s, 3 * face + 2);
        self.best = 0;
        self.visits(s, 3 * face)?;
        Ok(())
    }
}

/// The walks of all faces.
fn rank_all(alloc: Global, s: &Surface<'_>) -> Result<Ranks, Memory>
    requires { IsSurface s.now }
    ensures stored { IfOk result (λ r. IsRanked s.now r) }
    ensures ranked { IfOk result (λ r. ranked_of r ≡ ranked s.now.faces (gluing_in s.now) s.now.labels.now (length s.now.ends.now) s.now.faces) }
{
    let mut ranks = no_ranks(alloc, s)?;
    for face in 0..s.faces {
        ranks.walk_from(s, face)?;
    }
    Ok(ranks)
}

/// The order of a surface's classes by prediction degree (Draco Bitstream Specification 2.2, prediction
/// degree traversal). For each face in order that isn't visited, the classes of its corners 1 and 2, where
/// they have no entry, become entries with these corners, and the face is walked from its corner 0 with
/// stack 0 the best: the face of a corner is visited, and the corner's class, where it has no entry, becomes
/// the next one with this corner. A corner across a side whose face is unvisited is rated: 0 where its
/// class has an entry, 1 where it was rated before, else 2. Of two, the left one is rated first and put on
/// the stack of its rate. The walk goes on at the last one, where its rate is no more than the number
/// of the best stack, and else puts it on its stack, which becomes the best where it comes before it; then,
/// as where there is none, the next corner is the last one of an unvisited face on the first stack from the
/// best on, and that stack becomes the best. Each class has one entry, the entry of each corner is of the
/// corner's class, and for each entry the face across the side of its corner is kept, where there is one
/// whose entries all come before. Takes memory in proportion to the faces and the classes, and fails only
/// when out of memory.
pub fn prediction_degree(alloc: Global, t: &SideTable, c: &Classes) -> Result<Order, Memory>
    requires { IsLabelled t.now.faces (gluing_of t.now) c.now.of_corner c.now.count c.now.ends }
    ensures entries { IfOk result (λ o. corners_in o ≡ prediction_degree_order t.now.faces (gluing_of t.now) c.now.of_corner c.now.count) }
    ensures classes { IfOk result (λ o. IsOrderOf t.now.faces c.now.of_corner c.now.count o) }
    ensures ordered { IfOk result (λ o. IsOrdered t.now c.now.of_corner o) }
{
    let s = surface_of(t, c);
    let ranks = rank_all(alloc, &s)?;
    Ok(order_of(&s, ranks.marks))
}
