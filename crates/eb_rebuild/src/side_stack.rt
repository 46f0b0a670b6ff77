//! The sides that wait.

ghost use Rattle.std.specs.Prelude.{◌≡◌, suc, ◌+◌, ◌<◌, ◌≤◌, ◌∷◌, max, vec_len, vec_capacity};
ghost use Rattle.eb_rebuild.specs.Kept.{counted_down};

use drc_base::Memory;
use std::alloc::Global;
use std::marker::Model;

/// A stack of sides by their numbers, with room for as many as it is made for. Places above its height keep what stood
/// there, so that only as much of the room is touched as is used.
#[derive(Debug, Drop)]
pub struct SideStack {
    sides: Vec<u32>,
    height: u32,
    room: u32,
}

/// Puts a side above the first `height` ones, for which there is room.
#[inline(always)]
fn put(sides: &mut Vec<u32>, height: u32, side: u32)
    requires within { height ≤ vec_len sides.old }
    requires room { height < vec_capacity sides.old }
    ensures top { counted_down 0 (suc height) sides.new.items ≡ side ∷ counted_down 0 height sides.old.items }
    ensures len { vec_len sides.new ≡ max (vec_len sides.old) (height + 1) }
    ensures capacity { vec_capacity sides.new ≡ vec_capacity sides.old }
{
    let at = height as usize;
    if at < sides.len() {
        sides[at] = side;
        return;
    }
    sides.push_reserved(side);
}

impl Model for SideStack {
    ghost use Rattle.std.specs.Prelude.{◌≤◌, vec_len, vec_capacity};
    ghost use Rattle.eb_rebuild.specs.Kept.{StackValue, counted_down};

    ghost Value = { StackValue };

    ghost view = { λ s. record { sides = counted_down 0 s.height s.sides.items; room = s.room } };

    ghost invariant = { λ s. (s.height ≤ vec_len s.sides) × (vec_len s.sides ≤ s.room) × (s.room ≤ vec_capacity s.sides) };
}

impl SideStack {
    ghost use Rattle.std.specs.Prelude.{◌≡◌, ℕ, ◌<◌, ◌≤◌, [], ◌∷◌, length, IfOk, MatchOption};
    ghost use Rattle.eb_rebuild.specs.Kept.{first_side};

    /// An empty stack with room for `room` sides.
    pub fn with_room(alloc: Global, room: u32) -> Result<SideStack, Memory>
        ensures sides { IfOk result (λ s. s.sides ≡ []) }
        ensures room { IfOk result (λ s. s.room ≡ room) }
    {
        Ok(SideStack {
            sides: Vec::with_capacity(alloc, room as usize)?,
            height: 0,
            room,
        })
    }

    /// How many sides wait.
    pub fn len(&self) -> u32
        ensures len { result ≡ length self.now.sides }
        ensures room { length self.now.sides ≤ self.now.room }
    {
        self.height
    }

    /// Puts a side on top.
    #[inline(always)]
    pub fn push(&mut self, side: u32)
        requires { length self.old.sides < self.old.room }
        ensures sides { self.new.sides ≡ side ∷ self.old.sides }
        ensures room { self.new.room ≡ self.old.room }
    {
        put(&mut self.sides, self.height, side);
        self.height += 1;
    }

    /// The top side; None where none waits.
    pub fn top(&self) -> Option<u32>
        ensures { result ≡ first_side self.now.sides }
    {
        if self.height == 0 {
            None
        } else {
            Some(self.sides[self.height as usize - 1])
        }
    }

    /// Takes the top side off; None where none waits.
    #[inline(always)]
    pub fn pop(&mut self) -> Option<u32>
        ensures top { MatchOption result ((self.old.sides ≡ []) × (self.new.sides ≡ [])) (λ side. self.old.sides ≡ side ∷ self.new.sides) }
        ensures room { self.new.room ≡ self.old.room }
    {
        if self.height == 0 {
            return None;
        }
        self.height -= 1;
        Some(self.sides[self.height as usize])
    }
}
