//! The names of the corners of built faces.
//!
//! A vertex takes the next number as its name when it is made, and each corner of a face is named once,
//! when the face is built: by the name of the corner that it meets, or by that of a new vertex. Where two
//! vertices become one, their names are joined, and no corner is renamed. So the least name of a vertex
//! is met first at its least corner, and the names, once those that were joined have one number, are the
//! labels of the vertices by least corners.

ghost use Rattle.std.specs.Prelude.{◌≡◌, ℕ, ◌+◌, ◌*◌, ◌<◌, ◌≤◌, IfOk, length, get_or, vec_len};
ghost use Rattle.drc_base.specs.declared.limits.TheConstants.{MAX_FACES as most_faces};
ghost use Rattle.corner_table.specs.Table.{free_entry};
ghost use Rattle.eb_rebuild.specs.JoinedNames.{root_in, roots_below};
ghost use Rattle.corner_table.specs.Sides.{number, next, side_at};
ghost use Rattle.eb_rebuild.specs.CornerNames.{AreNumbers, AreMarked, marked_start};

use crate::joined_names::JoinedNames;
use corner_table::{Classes, FREE, next_number, previous_number};
use drc_base::{Memory, Sequence};
use eb_machine::Beside;
use std::alloc::Global;
use std::marker::Model;

/// The name of each corner, by the corner's number, and which names are joined.
#[derive(Debug, Drop)]
pub(crate) struct CornerNames {
    names: Vec<u32>,
    joined: JoinedNames,
}

impl Model for CornerNames {
    ghost use Rattle.std.specs.Prelude.{min, vec_capacity};
    ghost use Rattle.eb_rebuild.specs.CornerNames.{NamedCorners};

    ghost Value = { NamedCorners };

    ghost view = { λ n. record { names = n.names.items; up = n.joined.up; room = min (vec_capacity n.names) n.joined.room } };
}

/// The labels of the corners, and how many there are.
#[derive(Debug, Drop)]
struct Labels {
    of_corner: Vec<u32>,
    count: u32,
}

/// Writes the number of each name.
fn renumber(names: &mut Vec<u32>, numbers: &Vec<u32>)
    requires { (i : ℕ) → i < length names.old.items → get_or names.old.items i 0 < vec_len numbers.now }
    ensures len { length names.new.items ≡ length names.old.items }
    ensures items { (i : ℕ) → i < length names.old.items → get_or names.new.items i 0 ≡ get_or numbers.now.items (get_or names.old.items i 0) 0 }
{
    for name in names.iter_mut() {
        *name = numbers[*name as usize];
    }
}

/// The labels of the corners, from their names, of which `made` were made.
fn labels_of(names: Vec<u32>, joined: JoinedNames, made: u32) -> Labels
    requires made { length joined.up ≡ made }
    requires below { (i : ℕ) → i < length names.items → get_or names.items i 0 < made }
    ensures labels { AreNumbers names.items joined.up result.of_corner.items }
    ensures count { result.count ≡ roots_below (root_in joined.up) made }
{
    let mut of_corner = names;
    match joined.into_numbers(made) {
        None => Labels {
            of_corner,
            count: made,
        },
        Some(roots) => {
            renumber(&mut of_corner, &roots.numbers);
            Labels {
                of_corner,
                count: roots.count,
            }
        }
    }
}

/// The number at a place of a list.
fn number_at(list: &[u32], place: u32) -> u32
    requires { place < length list.now }
    ensures zero { result ≡ get_or list.now place 0 }
    ensures free { result ≡ get_or list.now place free_entry }
{
    list[place as usize]
}

/// Marks the label of the vertex at which a side starts, if the side is free.
fn mark_start(ends: &mut Vec<bool>, across: &[u32], labels: &[u32], side: u32)
    requires real { side < free_entry }
    requires side { side < length across.now }
    requires corner { number (next (side_at side)) < length labels.now }
    requires label { get_or labels.now (number (next (side_at side))) 0 < vec_len ends.old }
    ensures len { vec_len ends.new ≡ vec_len ends.old }
    ensures items { ends.new.items ≡ marked_start across.now labels.now side ends.old.items }
{
    if number_at(across, side) == FREE {
        let label = number_at(labels, next_number(side));
        ends[label as usize] = true;
    }
}

/// Of each label whether a free side starts at a vertex that has it.
fn boundary_labels(
    alloc: Global,
    across: &[u32],
    labels: &[u32],
    faces: u32,
    count: u32,
) -> Result<Vec<bool>, Memory>
    requires limit { faces ≤ most_faces }
    requires sides { 3 * faces ≤ length across.now }
    requires corners { length labels.now ≡ 3 * faces }
    requires below { (i : ℕ) → i < 3 * faces → get_or labels.now i 0 < count }
    ensures { IfOk result (λ v. AreMarked across.now labels.now (3 * faces) count v.items) }
{
    let mut ends = vec![in alloc; false; count as usize]?;
    for side in 0..3 * faces {
        mark_start(&mut ends, across, labels, side);
    }
    Ok(ends)
}

impl CornerNames {
    ghost use Rattle.std.specs.Prelude.{[], ◌∷◌, ◌++◌};
    ghost use Rattle.corner_table.specs.Sides.{next, prev, side_at};
    ghost use Rattle.corner_table.specs.Table.{glued_in};
    ghost use Rattle.corner_table.specs.Labels.{IsLabelled};
    ghost use Rattle.eb_machine.specs.Beside.{new_triangle};
    ghost use Rattle.eb_rebuild.specs.JoinedNames.{joined, Falls};
    ghost use Rattle.eb_rebuild.specs.CornerNames.{name_at, with_face, HasFaceOf, IsNaming};

    /// No names, and room for those of the corners of `faces` faces.
    pub(crate) fn with_room(alloc: Global, faces: u32) -> Result<CornerNames, Memory>
        requires { faces ≤ most_faces }
        ensures names { IfOk result (λ n. n.names ≡ []) }
        ensures none { IfOk result (λ n. n.up ≡ []) }
        ensures room { IfOk result (λ n. n.room ≡ 3 * faces) }
    {
        Ok(CornerNames {
            names: Vec::with_capacity(alloc, 3 * faces as usize)?,
            joined: JoinedNames::with_room(alloc, faces)?,
        })
    }

    /// The name of the corner at which a side starts.
    #[inline(always)]
    fn start_of(&self, side: u32) -> u32
        requires real { side < free_entry }
        requires face { HasFaceOf self.now.names side }
        ensures { result ≡ name_at self.now (next (side_at side)) }
    {
        self.names[next_number(side) as usize]
    }

    /// The name of the corner at which a side ends.
    #[inline(always)]
    fn end_of(&self, side: u32) -> u32
        requires real { side < free_entry }
        requires face { HasFaceOf self.now.names side }
        ensures { result ≡ name_at self.now (prev (side_at side)) }
    {
        self.names[previous_number(side) as usize]
    }

    /// Names the corners of a face more.
    #[inline(always)]
    fn name_face(&mut self, t: (u32, u32, u32))
        requires { length self.old.names + 3 ≤ self.old.room }
        ensures { self.new ≡ record self.old { names = with_face self.old.names t } }
    {
        self.names.push_reserved(t.0);
        self.names.push_reserved(t.1);
        self.names.push_reserved(t.2);
    }

    /// E: three new vertices.
    #[inline(always)]
    pub(crate) fn add_end(&mut self, vertex: u32)
        requires next { vertex ≡ length self.old.up }
        requires limit { vertex ≤ 3 * most_faces }
        requires corners { length self.old.names + 3 ≤ self.old.room }
        requires vertices { length self.old.up + 3 ≤ self.old.room }
        ensures names { self.new.names ≡ with_face self.old.names (vertex, vertex + 1, vertex + 2) }
        ensures up { self.new.up ≡ self.old.up ++ (vertex ∷ []) ++ ((vertex + 1) ∷ []) ++ ((vertex + 2) ∷ []) }
        ensures room { self.new.room ≡ self.old.room }
    {
        self.joined.add(vertex);
        self.joined.add(vertex + 1);
        self.joined.add(vertex + 2);
        self.name_face((vertex, vertex + 1, vertex + 2));
    }

    /// L and R: the ends of side a, and a new vertex.
    #[inline(always)]
    pub(crate) fn add_beside(&mut self, beside: Beside, a: u32, vertex: u32)
        requires next { vertex ≡ length self.old.up }
        requires real { a < free_entry }
        requires face { HasFaceOf self.old.names a }
        requires corners { length self.old.names + 3 ≤ self.old.room }
        requires vertices { length self.old.up < self.old.room }
        ensures names { self.new.names ≡ with_face self.old.names (new_triangle beside (name_at self.old (next (side_at a))) (name_at self.old (prev (side_at a))) vertex) }
        ensures up { self.new.up ≡ self.old.up ++ (vertex ∷ []) }
        ensures room { self.new.room ≡ self.old.room }
    {
        let from = self.start_of(a);
        let to = self.end_of(a);
        self.joined.add(vertex);
        self.name_face(beside.triangle(from, to, vertex));
    }

    /// C: the ends of side a, and the vertex at which side b starts, which comes before it.
    #[inline(always)]
    pub(crate) fn add_tip(&mut self, a: u32, b: u32)
        requires real { a < free_entry }
        requires real_before { b < free_entry }
        requires face { HasFaceOf self.old.names a }
        requires face_before { HasFaceOf self.old.names b }
        requires corners { length self.old.names + 3 ≤ self.old.room }
        ensures { self.new ≡ record self.old { names = with_face self.old.names (name_at self.old (next (side_at a)), name_at self.old (next (side_at b)), name_at self.old (prev (side_at a))) } }
    {
        let from = self.start_of(a);
        let tip = self.start_of(b);
        let to = self.end_of(a);
        self.name_face((from, tip, to));
    }

    /// S: the vertex at which side b starts becomes the one at which side a ends.
    #[inline(always)]
    pub(crate) fn add_split(&mut self, b: u32, a: u32)
        requires real { b < free_entry }
        requires real_second { a < free_entry }
        requires face { HasFaceOf self.old.names b }
        requires face_second { HasFaceOf self.old.names a }
        requires below { name_at self.old (next (side_at b)) < length self.old.up }
        requires below_second { name_at self.old (prev (side_at a)) < length self.old.up }
        requires corners { length self.old.names + 3 ≤ self.old.room }
        ensures names { self.new.names ≡ with_face self.old.names (name_at self.old (prev (side_at a)), name_at self.old (next (side_at a)), name_at self.old (prev (side_at b))) }
        ensures len { length self.new.up ≡ length self.old.up }
        ensures falls { Falls self.new.up }
        ensures roots { (x : ℕ) → root_in self.new.up x ≡ joined (root_in self.old.up) (name_at self.old (next (side_at b))) (name_at self.old (prev (side_at a))) x }
        ensures room { self.new.room ≡ self.old.room }
    {
        let from = self.start_of(b);
        let to = self.end_of(a);
        let start = self.start_of(a);
        let end = self.end_of(b);
        self.joined.join(from, to);
        self.name_face((to, start, end));
    }

    /// A face that fills a loop of three: the vertex at which side b starts, and the ends of side a, before
    /// which side b comes.
    pub(crate) fn fill(&mut self, a: u32, b: u32)
        requires real { a < free_entry }
        requires real_before { b < free_entry }
        requires face { HasFaceOf self.old.names a }
        requires face_before { HasFaceOf self.old.names b }
        requires corners { length self.old.names + 3 ≤ self.old.room }
        ensures { self.new ≡ record self.old { names = with_face self.old.names (name_at self.old (next (side_at b)), name_at self.old (prev (side_at a)), name_at self.old (next (side_at a))) } }
    {
        let start = self.start_of(b);
        let to = self.end_of(a);
        let from = self.start_of(a);
        self.name_face((start, to, from));
    }

    /// The classes of the corners of a finished table with these entries, of whose vertices `made` were named.
    pub(crate) fn into_classes(
        self,
        alloc: Global,
        across: &[u32],
        faces: u32,
        made: u32,
    ) -> Result<Classes, Memory>
        requires limit { faces ≤ most_faces }
        requires sides { 3 * faces ≤ length across.now }
        requires made { length self.up ≡ made }
        requires naming { IsNaming faces (glued_in across.now) self }
        ensures { IfOk result (λ c. IsLabelled faces (glued_in across.now) c.of_corner c.count c.ends) }
    {
        let labels = labels_of(self.names, self.joined, made);
        let ends = boundary_labels(
            alloc,
            across,
            labels.of_corner.as_slice(),
            faces,
            labels.count,
        )?;
        Ok(Classes {
            of_corner: Sequence::from_vec(labels.of_corner),
            count: labels.count,
            ends: Sequence::from_vec(ends),
        })
    }
}
