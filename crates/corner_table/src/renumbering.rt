//! A table under new numbers of its faces, each face turned.
//!
//! For each old side stands the side that it becomes; by this list the entries are carried.

ghost use Rattle.std.specs.Prelude.{◌≡◌, ℕ, ◌+◌, ◌*◌, ◌^◌, ◌<◌, ◌≤◌, IfOk, length, get_or, vec_len};
ghost use Rattle.drc_base.specs.declared.limits.TheConstants.{MAX_FACES as most_faces};
ghost use Rattle.corner_table.specs.Sides.{side, place_of, number};
ghost use Rattle.corner_table.specs.Table.{free_entry};
ghost use Rattle.corner_table.specs.Carried.{turned, IsRenumbering};
ghost use Rattle.corner_table.specs.Renumbering.{ArePlaces, placed_face, becomes, AreCarried};

use crate::entries::{Entries, FREE, filled};
use crate::steps::Looks;
use drc_base::Memory;
use std::alloc::Global;

/// The number of the corner that the corner `k` of a new face was.
#[tactic(auto, using(crate::proofs::CarriedLists::turned_corner))]
fn source_of(face: u32, k: u8, turn: u8) -> u32
    requires face { face < most_faces }
    requires places { (k < 3) × (turn < 3) }
    ensures number { result ≡ number (side face (turned turn (place_of k))) }
    ensures within { result < 3 * face + 3 }
{
    3 * face + u32::from((k + turn) % 3)
}

/// Notes that the sides of a face become those from number `start` on.
fn place_face(places: &mut Vec<u32>, face: u32, turn: u8, start: u32)
    requires face { face < most_faces }
    requires turn { turn < 3 }
    requires within { 3 * face + 3 ≤ vec_len places.old }
    requires start { start + 3 < 2 ^ 32 }
    ensures len { vec_len places.new ≡ vec_len places.old }
    ensures items { places.new.items ≡ placed_face face turn start places.old.items }
{
    places[source_of(face, 0, turn) as usize] = start;
    places[source_of(face, 1, turn) as usize] = start + 1;
    places[source_of(face, 2, turn) as usize] = start + 2;
}

/// For each side that was, the number of the side that it becomes.
pub(crate) fn places_of(alloc: Global, faces: u32, rows: &[(u32, u8)]) -> Result<Vec<u32>, Memory>
    requires rows { IsRenumbering faces rows.now }
    requires few { faces ≤ most_faces }
    ensures { IfOk result (λ places. ArePlaces faces rows.now places.items) }
{
    let mut places = filled(alloc, 0, 3 * rows.len())?;
    let mut start = 0u32;
    for (face, turn) in rows {
        place_face(&mut places, *face, *turn, start);
        start += 3;
    }
    Ok(places)
}

/// What an old entry becomes: the place of a side, and none where it is no side.
fn entry_now(places: &Vec<u32>, entry: u32) -> u32
    ensures { result ≡ get_or places.now.items entry free_entry }
{
    if (entry as usize) < places.len() {
        places[entry as usize]
    } else {
        FREE
    }
}

/// The entry of the corner `k` of a new face, for a look.
fn entry_of(
    places: &Vec<u32>,
    entries: &Entries,
    face: u32,
    k: u8,
    turn: u8,
    looks: &mut Looks,
) -> u32
    requires face { face < most_faces }
    requires places { (k < 3) × (turn < 3) }
    requires within { 3 * face + 3 ≤ length entries.now.items }
    requires look { 0 < looks.old.left }
    ensures becomes { result ≡ becomes places.now.items entries.now.items (side face (turned turn (place_of k))) }
    ensures look { looks.new.left + 1 ≡ looks.old.left }
{
    entry_now(places, entries.at(source_of(face, k, turn), looks))
}

/// The entries of the new sides, for a look at each entry of the old ones.
pub(crate) fn carried(
    alloc: Global,
    faces: u32,
    rows: &[(u32, u8)],
    places: &Vec<u32>,
    entries: &Entries,
    mut looks: Looks,
) -> Result<Vec<u32>, Memory>
    requires rows { IsRenumbering faces rows.now }
    requires few { faces ≤ most_faces }
    requires fits { 3 * faces ≤ length entries.now.items }
    requires looks { 3 * faces ≤ looks.left }
    ensures { IfOk result (λ v. AreCarried faces rows.now places.now.items entries.now.items v.items) }
{
    let mut now = Vec::with_capacity(alloc, 3 * rows.len())?;
    for (face, turn) in rows {
        now.push(entry_of(places, entries, *face, 0, *turn, &mut looks))?;
        now.push(entry_of(places, entries, *face, 1, *turn, &mut looks))?;
        now.push(entry_of(places, entries, *face, 2, *turn, &mut looks))?;
    }
    Ok(now)
}
