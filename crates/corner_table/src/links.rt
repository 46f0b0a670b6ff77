//! The links of a boundary, as a new face and a gluing write them.

ghost use Rattle.std.specs.Prelude.{◌≡◌, ◌+◌, ◌*◌, ◌<◌, ◌≤◌, get_or, set, length};
ghost use Rattle.drc_base.specs.declared.limits.TheConstants.{MAX_FACES as most_faces};
ghost use Rattle.corner_table.specs.Links.{relinked, new_loop, grown, replaced, closed_up};

use crate::entries::Entries;
use crate::steps::Looks;

/// Side `y` follows side `x` from now on.
fn join(after: &mut Entries, before: &mut Entries, x: u32, y: u32)
    requires in_after { x < length after.old.items }
    requires in_before { y < length before.old.items }
    ensures after_len { length after.new.items ≡ length after.old.items }
    ensures before_len { length before.new.items ≡ length before.old.items }
    ensures after_room { after.new.room ≡ after.old.room }
    ensures before_room { before.new.room ≡ before.old.room }
    ensures after { after.new.items ≡ set after.old.items x y }
    ensures before { before.new.items ≡ set before.old.items y x }
{
    after.put(x, y);
    before.put(y, x);
}

/// Adds entries for the three sides of a new face, which follow one another.
pub(crate) fn link_face(after: &mut Entries, before: &mut Entries, face: u32)
    requires limit { face < most_faces }
    requires each_after { length after.old.items ≡ 3 * face }
    requires each_before { length before.old.items ≡ 3 * face }
    requires after_room { length after.old.items + 3 ≤ after.old.room }
    requires before_room { length before.old.items + 3 ≤ before.old.room }
    ensures after_room { after.new.room ≡ after.old.room }
    ensures before_room { before.new.room ≡ before.old.room }
    ensures after { after.new.items ≡ (new_loop face (grown (after.old.items, before.old.items))).0 }
    ensures before { before.new.items ≡ (new_loop face (grown (after.old.items, before.old.items))).1 }
{
    let first = 3 * face;
    after.add(first + 1, first + 2, first);
    before.add(first + 2, first, first + 1);
}

/// Takes two free sides out of the boundary: what comes before each is joined to what follows the
/// other. A side that is alone in its loop has no neighbour to join; both its ends are one vertex.
pub(crate) fn relink(after: &mut Entries, before: &mut Entries, a: u32, b: u32, mut looks: Looks)
    requires looks { 4 ≤ looks.left }
    requires a_after { a < length after.old.items }
    requires a_before { a < length before.old.items }
    requires b_after { b < length after.old.items }
    requires b_before { b < length before.old.items }
    requires next_a { get_or after.old.items a 0 < length before.old.items }
    requires next_b { get_or after.old.items b 0 < length before.old.items }
    requires previous_a { get_or before.old.items a 0 < length after.old.items }
    requires previous_b { get_or before.old.items b 0 < length after.old.items }
    ensures after_len { length after.new.items ≡ length after.old.items }
    ensures before_len { length before.new.items ≡ length before.old.items }
    ensures after_room { after.new.room ≡ after.old.room }
    ensures before_room { before.new.room ≡ before.old.room }
    ensures after { after.new.items ≡ (relinked a b (after.old.items, before.old.items)).0 }
    ensures before { before.new.items ≡ (relinked a b (after.old.items, before.old.items)).1 }
{
    let next_a = after.at(a, &mut looks);
    let next_b = after.at(b, &mut looks);
    let previous_a = before.at(a, &mut looks);
    let previous_b = before.at(b, &mut looks);
    if next_a == a {
        if next_b != b {
            join(after, before, previous_b, next_b);
        }
    } else if next_b == b {
        join(after, before, previous_a, next_a);
    } else {
        join(after, before, previous_a, next_b);
        join(after, before, previous_b, next_a);
    }
}

/// Puts two sides, of which the second is linked after the first, in the place of a free side of the
/// boundary. Where that side is alone in its loop, the two are the loop.
pub(crate) fn replace(
    after: &mut Entries,
    before: &mut Entries,
    top: u32,
    first: u32,
    second: u32,
    mut looks: Looks,
)
    requires looks { 2 ≤ looks.left }
    requires top_after { top < length after.old.items }
    requires top_before { top < length before.old.items }
    requires first_before { first < length before.old.items }
    requires second_after { second < length after.old.items }
    requires next { get_or after.old.items top 0 < length before.old.items }
    requires previous { get_or before.old.items top 0 < length after.old.items }
    ensures after_len { length after.new.items ≡ length after.old.items }
    ensures before_len { length before.new.items ≡ length before.old.items }
    ensures after_room { after.new.room ≡ after.old.room }
    ensures before_room { before.new.room ≡ before.old.room }
    ensures after { after.new.items ≡ (replaced top first second (after.old.items, before.old.items)).0 }
    ensures before { before.new.items ≡ (replaced top first second (after.old.items, before.old.items)).1 }
{
    let next = after.at(top, &mut looks);
    let previous = before.at(top, &mut looks);
    let alone = next == top;
    let ahead = if alone { second } else { previous };
    let behind = if alone { first } else { next };
    join(after, before, ahead, first);
    join(after, before, second, behind);
}

/// Puts a side in the place of the free side `top` and of the one before it. Where these are the whole
/// loop, the side is alone in it.
pub(crate) fn close_up(
    after: &mut Entries,
    before: &mut Entries,
    top: u32,
    previous: u32,
    side: u32,
    mut looks: Looks,
)
    requires looks { 2 ≤ looks.left }
    requires top { top < length after.old.items }
    requires previous { previous < length before.old.items }
    requires side_after { side < length after.old.items }
    requires side_before { side < length before.old.items }
    requires next { get_or after.old.items top 0 < length before.old.items }
    requires earlier { get_or before.old.items previous 0 < length after.old.items }
    ensures after_len { length after.new.items ≡ length after.old.items }
    ensures before_len { length before.new.items ≡ length before.old.items }
    ensures after_room { after.new.room ≡ after.old.room }
    ensures before_room { before.new.room ≡ before.old.room }
    ensures after { after.new.items ≡ (closed_up top previous side (after.old.items, before.old.items)).0 }
    ensures before { before.new.items ≡ (closed_up top previous side (after.old.items, before.old.items)).1 }
{
    let next = after.at(top, &mut looks);
    let earlier = before.at(previous, &mut looks);
    let whole = next == previous;
    let ahead = if whole { side } else { earlier };
    let behind = if whole { side } else { next };
    join(after, before, ahead, side);
    join(after, before, side, behind);
}
