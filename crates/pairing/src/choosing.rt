//! The least free side of a class with another third position.
//!
//! For each class two places are kept, which only move forward along the class: before the first one
//! all sides are taken, and before the other one those that are free have the third position of the
//! first. So the least free side is the first one, or, where that has the third position that is to
//! be another, the other one. A side that hasn't had its turn is free; what is found there is none.

ghost use Rattle.std.specs.Prelude.{◌≡◌, ℕ, ◌<◌, ◌≤◌, ◌^◌, ◌≢◌, Bool, false, length, slice_index, slice_index_or, vec_len, IsTrue};
ghost use Rattle.first_items.specs.Chains.{AreLinked};
ghost use Rattle.pairing.specs.Choosing.{AreKnown, IsPassed, IsFirstLeft, IsFirstFree, IsFirstOther, ArePlaced, IsChosen};

use first_items::NONE;

/// What is known of the sides: their third positions, their classes, and the links of these.
#[derive(Drop)]
pub(crate) struct Sides {
    /// The third position of each side: that of the corner with its number.
    pub thirds: Vec<u32>,
    /// The class of each side.
    pub classes: Vec<u32>,
    /// For each side the next one of its class.
    pub nexts: Vec<u32>,
}

/// Which sides are taken, and the two places of each class.
#[derive(Drop)]
pub(crate) struct Places {
    /// Of each side, whether it is in a pair.
    pub taken: Vec<bool>,
    /// Of each class, where its free sides begin.
    pub firsts: Vec<u32>,
    /// Of each class, where its free sides with another third position than the first one's begin.
    pub others: Vec<u32>,
}

/// Whether the way along a class goes past side `at`.
fn is_passed(sides: &Sides, taken: &[bool], at: u32, skip: u32) -> bool
    requires { length sides.now.thirds.items ≡ length taken.now }
    ensures passed { IsTrue result → (at < length taken.now) × IsPassed sides.now.thirds.items taken.now skip at }
    ensures left { result ≡ false → at < length taken.now → (slice_index_or taken.now at false ≡ false) × (slice_index sides.now.thirds.items at ≢ skip) }
{
    let place = at as usize;
    place < taken.len() && (taken[place] || sides.thirds[place] == skip)
}

/// From side `from` on, the first side of its class that is free and whose third position isn't
/// `skip`.
fn first_left(sides: &Sides, taken: &[bool], from: u32, skip: u32) -> u32
    requires thirds { length sides.now.thirds.items ≡ length taken.now }
    requires classes { length sides.now.classes.items ≡ length taken.now }
    requires linked { AreLinked sides.now.classes.items sides.now.nexts.items 0 }
    ensures { IsFirstLeft sides.now.classes.items sides.now.thirds.items taken.now from skip result }
{
    let mut at = from;
    while is_passed(sides, taken, at, skip) {
        at = sides.nexts[at as usize];
    }
    at
}

/// Moves the first place of a class to its least free side, and answers it.
fn move_first(sides: &Sides, places: &mut Places, count: u32, class: u32) -> u32
    requires known { AreKnown sides.now.classes.items sides.now.thirds.items sides.now.nexts.items count }
    requires placed { ArePlaced sides.now.classes.items sides.now.thirds.items places.old.taken.items places.old.firsts.items places.old.others.items count }
    requires class { class < count }
    requires taken { length places.old.taken.items ≡ length sides.now.classes.items }
    ensures taken { places.new.taken.items ≡ places.old.taken.items }
    ensures placed { ArePlaced sides.now.classes.items sides.now.thirds.items places.new.taken.items places.new.firsts.items places.new.others.items count }
    ensures here { slice_index places.new.firsts.items class ≡ result }
    ensures first { IsFirstFree sides.now.classes.items places.old.taken.items class result }
{
    let from = places.firsts[class as usize];
    let least = first_left(sides, places.taken.as_slice(), from, NONE);
    places.firsts[class as usize] = least;
    least
}

/// Moves the other place of a class to its least free side whose third position isn't that of
/// `least`, the first one, and answers it.
fn move_other(sides: &Sides, places: &mut Places, count: u32, class: u32, least: u32) -> u32
    requires known { AreKnown sides.now.classes.items sides.now.thirds.items sides.now.nexts.items count }
    requires placed { ArePlaced sides.now.classes.items sides.now.thirds.items places.old.taken.items places.old.firsts.items places.old.others.items count }
    requires class { class < count }
    requires taken { length places.old.taken.items ≡ length sides.now.classes.items }
    requires here { slice_index places.old.firsts.items class ≡ least }
    requires least { least < length sides.now.classes.items }
    ensures taken { places.new.taken.items ≡ places.old.taken.items }
    ensures placed { ArePlaced sides.now.classes.items sides.now.thirds.items places.new.taken.items places.new.firsts.items places.new.others.items count }
    ensures other { IsFirstOther sides.now.classes.items sides.now.thirds.items places.old.taken.items class (slice_index sides.now.thirds.items least) result }
{
    let from = places.others[class as usize];
    let skip = sides.thirds[least as usize];
    let other = first_left(sides, places.taken.as_slice(), from, skip);
    places.others[class as usize] = other;
    other
}

/// Of a class, the least side below `before` that is free and whose third position isn't `third`.
pub(crate) fn choose(
    sides: &Sides,
    places: &mut Places,
    count: u32,
    class: u32,
    third: u32,
    before: u32,
) -> Option<u32>
    requires known { AreKnown sides.now.classes.items sides.now.thirds.items sides.now.nexts.items count }
    requires placed { ArePlaced sides.now.classes.items sides.now.thirds.items places.old.taken.items places.old.firsts.items places.old.others.items count }
    requires class { class < count }
    requires taken { length places.old.taken.items ≡ length sides.now.classes.items }
    requires before { before ≤ length sides.now.classes.items }
    ensures taken { places.new.taken.items ≡ places.old.taken.items }
    ensures placed { ArePlaced sides.now.classes.items sides.now.thirds.items places.new.taken.items places.new.firsts.items places.new.others.items count }
    ensures chosen { IsChosen sides.now.classes.items sides.now.thirds.items places.old.taken.items class third before result }
{
    let least = move_first(sides, places, count, class);
    if least >= before {
        return None;
    }
    if sides.thirds[least as usize] != third {
        return Some(least);
    }
    let other = move_other(sides, places, count, class, least);
    if other < before { Some(other) } else { None }
}
