//! The degrees that a rebuilding by links keeps, if they will be asked for: at each free side that of the
//! vertex at which it starts.
//!
//! A symbol glues its face to one or two free sides. The vertices at their ends get a corner each, so
//! that the degree rises at the side itself and at the one that follows it; the side that follows
//! starts where it ends. An S makes one vertex of two, and the corners of both are its own. Where a
//! side follows itself, both its ends are one vertex, and the degree rises twice: so what follows is
//! raised first, and read after.

ghost use Rattle.std.specs.Prelude.{◌≡◌, ℕ, ◌+◌, ◌*◌, ◌^◌, ◌<◌, ◌≤◌, cond, get_or, set, vec_len, vec_capacity};
ghost use Rattle.drc_base.specs.declared.limits.TheConstants.{MAX_FACES as most_faces};
ghost use Rattle.eb_rebuild.specs.KeptDegrees.{degree_raised, with_room, after_end, after_beside, after_tip, after_split};

use corner_table::{LinkedTable, Steps, number_of, side_with};
use drc_base::Memory;
use eb_machine::Beside;
use std::alloc::Global;
use std::marker::Model;
use std::sync::ledger::Ledger;

/// The degree of a vertex that has one corner, and at which a free side starts.
const OF_ONE: u32 = 2;

/// How many degrees are kept for so many faces: one for each side, or none.
fn places_for(faces: u32, kept: bool) -> u32
    requires { faces ≤ most_faces }
    ensures { result ≡ cond kept (3 * faces) 0 }
{
    if kept { 3 * faces } else { 0 }
}

/// Adds places for the sides of a face more.
#[inline(always)]
fn add_places(degrees: &mut Vec<u32>)
    requires { vec_len degrees.old + 3 ≤ vec_capacity degrees.old }
    ensures len { vec_len degrees.new ≡ vec_len degrees.old + 3 }
    ensures capacity { vec_capacity degrees.new ≡ vec_capacity degrees.old }
    ensures items { degrees.new.items ≡ with_room degrees.old.items }
{
    degrees.push_reserved(OF_ONE);
    degrees.push_reserved(OF_ONE);
    degrees.push_reserved(OF_ONE);
}

/// The degree kept at a side.
fn degree_at(degrees: &Vec<u32>, side: u32) -> u32
    requires { side < vec_len degrees.now }
    ensures { result ≡ get_or degrees.now.items side 0 }
{
    degrees[side as usize]
}

/// Writes the degree at a side.
fn keep(degrees: &mut Vec<u32>, side: u32, degree: u32)
    requires { side < vec_len degrees.old }
    ensures len { vec_len degrees.new ≡ vec_len degrees.old }
    ensures capacity { vec_capacity degrees.new ≡ vec_capacity degrees.old }
    ensures items { degrees.new.items ≡ set degrees.old.items side degree }
{
    degrees[side as usize] = degree;
}

/// Raises the degree at a side.
fn raise(degrees: &mut Vec<u32>, side: u32, more: u32)
    requires room { side < vec_len degrees.old }
    requires small { get_or degrees.old.items side 0 + more < 2 ^ 32 }
    ensures len { vec_len degrees.new ≡ vec_len degrees.old }
    ensures capacity { vec_capacity degrees.new ≡ vec_capacity degrees.old }
    ensures items { degrees.new.items ≡ degree_raised side more degrees.old.items }
{
    let degree = degree_at(degrees, side) + more;
    keep(degrees, side, degree);
}

/// E: face `face` has three vertices of its own.
#[inline(always)]
fn end_degrees(degrees: &mut Vec<u32>, face: u32)
    requires limit { face < most_faces }
    requires room { 3 * face + 3 ≤ vec_len degrees.old }
    ensures len { vec_len degrees.new ≡ vec_len degrees.old }
    ensures capacity { vec_capacity degrees.new ≡ vec_capacity degrees.old }
    ensures items { degrees.new.items ≡ after_end face degrees.old.items }
{
    keep(degrees, 3 * face, OF_ONE);
    keep(degrees, 3 * face + 1, OF_ONE);
    keep(degrees, 3 * face + 2, OF_ONE);
}

/// L and R: face `face` is glued to side a, which side `next` follows. The side after the glued one
/// starts where a does, the side before it at the new vertex.
#[inline(always)]
fn beside_degrees(degrees: &mut Vec<u32>, beside: Beside, face: u32, a: u32, next: u32)
    requires limit { face < most_faces }
    requires room { 3 * face + 3 ≤ vec_len degrees.old }
    requires first { a < 3 * face }
    requires second { next < 3 * face }
    requires small { get_or degrees.old.items a 0 ≤ 3 * most_faces }
    requires small_next { get_or degrees.old.items next 0 ≤ 3 * most_faces }
    ensures len { vec_len degrees.new ≡ vec_len degrees.old }
    ensures capacity { vec_capacity degrees.new ≡ vec_capacity degrees.old }
    ensures items { degrees.new.items ≡ after_beside beside face a next degrees.old.items }
{
    raise(degrees, next, 1);
    let start = degree_at(degrees, a) + 1;
    keep(degrees, beside.side_after(face), start);
    keep(degrees, beside.side_before(face), OF_ONE);
}

/// C: face `face` is glued to a side that side `next` follows, and to side t, which comes before it.
#[inline(always)]
fn tip_degrees(degrees: &mut Vec<u32>, face: u32, t: u32, next: u32)
    requires limit { face < most_faces }
    requires room { 3 * face + 3 ≤ vec_len degrees.old }
    requires first { t < 3 * face }
    requires second { next < 3 * face }
    requires small { get_or degrees.old.items t 0 ≤ 3 * most_faces }
    requires small_next { get_or degrees.old.items next 0 ≤ 3 * most_faces }
    ensures len { vec_len degrees.new ≡ vec_len degrees.old }
    ensures capacity { vec_capacity degrees.new ≡ vec_capacity degrees.old }
    ensures items { degrees.new.items ≡ after_tip face t next degrees.old.items }
{
    raise(degrees, next, 1);
    let start = degree_at(degrees, t) + 1;
    keep(degrees, 3 * face, start);
}

/// S: face `face` is glued to sides b and a, which sides `next_b` and `next_a` follow. The vertex at
/// which b starts becomes the one at which `next_a` starts, and brings its corners.
#[inline(always)]
fn split_degrees(degrees: &mut Vec<u32>, face: u32, b: u32, a: u32, next_b: u32, next_a: u32)
    requires limit { face < most_faces }
    requires room { 3 * face + 3 ≤ vec_len degrees.old }
    requires first { b < 3 * face }
    requires second { a < 3 * face }
    requires third { next_b < 3 * face }
    requires fourth { next_a < 3 * face }
    requires small { get_or degrees.old.items b 0 ≤ 3 * most_faces }
    requires small_second { get_or degrees.old.items a 0 ≤ 3 * most_faces }
    requires small_third { get_or degrees.old.items next_b 0 ≤ 3 * most_faces }
    requires small_fourth { get_or degrees.old.items next_a 0 ≤ 3 * most_faces }
    ensures len { vec_len degrees.new ≡ vec_len degrees.old }
    ensures capacity { vec_capacity degrees.new ≡ vec_capacity degrees.old }
    ensures items { degrees.new.items ≡ after_split face b a next_b next_a degrees.old.items }
{
    raise(degrees, next_b, 1);
    let brought = degree_at(degrees, b);
    raise(degrees, next_a, brought);
    let start = degree_at(degrees, a) + 1;
    keep(degrees, 3 * face, start);
}

/// The degrees at the free sides of a table, or nothing where none will be asked for.
#[derive(Debug, Drop)]
pub(crate) struct KeptDegrees {
    kept: bool,
    list: Vec<u32>,
}

impl Model for KeptDegrees {
    ghost use Rattle.std.specs.Prelude.{vec_capacity};
    ghost use Rattle.eb_rebuild.specs.KeptDegrees.{DegreesValue};

    ghost Value = { DegreesValue };

    ghost view = { λ d. record { kept = d.kept; list = d.list.items; room = vec_capacity d.list } };
}

impl KeptDegrees {
    ghost use Rattle.std.specs.Prelude.{[], length, IfOk, IsTrue};
    ghost use Rattle.corner_table.specs.Sides.{side_at};
    ghost use Rattle.corner_table.specs.Table.{IsFreeIn};
    ghost use Rattle.eb_rebuild.specs.KeptDegrees.{HasPlaces, IsReady, NotesBeside, NotesTip, NotesSplit};

    /// No degree yet, and room for those of the sides of `faces` faces, if degrees will be asked for.
    pub(crate) fn none(alloc: Global, faces: u32, kept: bool) -> Result<KeptDegrees, Memory>
        requires { faces ≤ most_faces }
        ensures kept { IfOk result (λ d. d.kept ≡ kept) }
        ensures none { IfOk result (λ d. d.list ≡ []) }
        ensures room { IfOk result (λ d. IsTrue kept → 3 * faces ≤ d.room) }
    {
        let places = places_for(faces, kept);
        Ok(KeptDegrees {
            kept,
            list: Vec::with_capacity(alloc, places as usize)?,
        })
    }

    /// The degree kept at a side.
    pub(crate) fn at(&self, side: u32) -> u32
        requires { side < length self.now.list }
        ensures { result ≡ get_or self.now.list side 0 }
    {
        degree_at(&self.list, side)
    }

    /// E: face `face`, the next in the list, has three vertices of its own.
    #[inline(always)]
    pub(crate) fn note_end(&mut self, face: u32)
        requires limit { face < most_faces }
        requires places { IsTrue self.old.kept → HasPlaces face self.old }
        ensures kept { self.new.kept ≡ self.old.kept }
        ensures room { self.new.room ≡ self.old.room }
        ensures list { IsTrue self.old.kept → self.new.list ≡ after_end face (with_room self.old.list) }
    {
        if self.kept {
            add_places(&mut self.list);
            end_degrees(&mut self.list, face);
        }
    }

    /// L and R: the next face of a table will be glued to the free side a. It takes a table call at most.
    #[inline(always)]
    pub(crate) fn note_beside<L: Ledger>(
        &mut self,
        table: &LinkedTable<L>,
        beside: Beside,
        a: u32,
        steps: &mut Steps<L>,
    )
        requires limit { table.now.faces < most_faces }
        requires free { IsFreeIn table.now (side_at a) }
        requires ready { IsTrue self.old.kept → IsReady table.now self.old }
        ensures kept { self.new.kept ≡ self.old.kept }
        ensures room { self.new.room ≡ self.old.room }
        ensures list { IsTrue self.old.kept → NotesBeside table.now beside a self.old self.new }
        ensures cost { steps.new ≤ steps.old + 1 }
    {
        if self.kept {
            let next = number_of(table.next_open(side_with(a), steps));
            add_places(&mut self.list);
            beside_degrees(&mut self.list, beside, table.face_count(), a, next);
        }
    }

    /// C: the next face of a table will be glued to the free sides a and t, the one before it. It takes a
    /// table call at most.
    #[inline(always)]
    pub(crate) fn note_tip<L: Ledger>(
        &mut self,
        table: &LinkedTable<L>,
        a: u32,
        t: u32,
        steps: &mut Steps<L>,
    )
        requires limit { table.now.faces < most_faces }
        requires free { IsFreeIn table.now (side_at a) }
        requires free_before { IsFreeIn table.now (side_at t) }
        requires ready { IsTrue self.old.kept → IsReady table.now self.old }
        ensures kept { self.new.kept ≡ self.old.kept }
        ensures room { self.new.room ≡ self.old.room }
        ensures list { IsTrue self.old.kept → NotesTip table.now a t self.old self.new }
        ensures cost { steps.new ≤ steps.old + 1 }
    {
        if self.kept {
            let next = number_of(table.next_open(side_with(a), steps));
            add_places(&mut self.list);
            tip_degrees(&mut self.list, table.face_count(), t, next);
        }
    }

    /// S: the next face of a table will be glued to the free sides b and a. It takes two table calls at
    /// most.
    #[inline(always)]
    pub(crate) fn note_split<L: Ledger>(
        &mut self,
        table: &LinkedTable<L>,
        b: u32,
        a: u32,
        steps: &mut Steps<L>,
    )
        requires limit { table.now.faces < most_faces }
        requires free { IsFreeIn table.now (side_at b) }
        requires free_second { IsFreeIn table.now (side_at a) }
        requires ready { IsTrue self.old.kept → IsReady table.now self.old }
        ensures kept { self.new.kept ≡ self.old.kept }
        ensures room { self.new.room ≡ self.old.room }
        ensures list { IsTrue self.old.kept → NotesSplit table.now b a self.old self.new }
        ensures cost { steps.new ≤ steps.old + 2 }
    {
        if self.kept {
            let next_b = number_of(table.next_open(side_with(b), steps));
            let next_a = number_of(table.next_open(side_with(a), steps));
            add_places(&mut self.list);
            split_degrees(&mut self.list, table.face_count(), b, a, next_b, next_a);
        }
    }
}
