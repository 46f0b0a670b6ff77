//! Labels of vertices.
//!
//! Corners are taken in order. One without a label begins a new fan: from it the fan is walked to the
//! left until it comes round or ends, and where it ends, to the right too. Each corner is labelled once.

ghost use Rattle.std.specs.Prelude.{◌≡◌, ℕ, ◌+◌, ◌*◌, ◌<◌, ◌≤◌, true, List, IfOk, get_or, length, vec_len};
ghost use Rattle.std.specs.Option.{option_map};
ghost use Rattle.corner_table.specs.Sides.{side_at, IsGluing};
ghost use Rattle.corner_table.specs.Fans.{swing_left, swing_right};
ghost use Rattle.corner_table.specs.Table.{gluing_of, free_entry};
ghost use Rattle.corner_table.specs.Labels.{label_at, IsLabelled};
ghost use Rattle.corner_table.specs.Labelling.{unlabelled, IsReady, IsLeftDone, IsWhole, IsFanLabelled};

use crate::corner_lists::Classes;
use crate::entries::filled;
use crate::side_table::SideTable;
use crate::steps::{Looks, Steps};
use drc_base::{Memory, Sequence};
use std::alloc::Global;
use std::sync::ledger::Ledger;

/// The label of a corner that has none yet.
const NONE: u32 = u32::MAX;

/// The label of a corner.
fn label_of(labels: &Vec<u32>, corner: u32) -> u32
    requires { corner < vec_len labels.now }
    ensures { result ≡ get_or labels.now.items corner free_entry }
{
    labels[corner as usize]
}

/// Labels the fan of corner `start` from there to the left; whether it came to an end. It takes a look for
/// each corner that it labels.
fn label_left(
    table: &SideTable,
    labels: &mut Vec<u32>,
    start: u32,
    label: u32,
    looks: &mut Looks,
) -> bool
    requires gluing { IsGluing table.now.faces (gluing_of table.now) }
    requires start { start < 3 * table.now.faces }
    requires room { vec_len labels.old ≡ 3 * table.now.faces }
    requires real { label < free_entry }
    requires fresh { get_or labels.old.items start free_entry ≡ free_entry }
    requires looks { 2 * unlabelled labels.old.items ≤ looks.old.left }
    ensures len { vec_len labels.new ≡ vec_len labels.old }
    ensures left { IsReady (gluing_of table.now) label labels.old.items (side_at start) → IsLeftDone (gluing_of table.now) label labels.old.items labels.new.items (side_at start) result }
    ensures looks { 2 * unlabelled labels.new.items + 1 ≤ looks.new.left }
{
    labels[start as usize] = label;
    let mut at = start;
    'leftwards: loop {
        match table.left_of(at, looks) {
            None => return true,
            Some(found) => {
                if label_of(labels, found) != NONE {
                    return false;
                }
                labels[found as usize] = label;
                at = found;
            }
        }
    }
}

/// Labels the rest of an open fan, from corner `start` to the right. It takes a look for each corner that it
/// labels, and one for `start`.
fn label_right(table: &SideTable, labels: &mut Vec<u32>, start: u32, label: u32, looks: &mut Looks)
    requires gluing { IsGluing table.now.faces (gluing_of table.now) }
    requires start { start < 3 * table.now.faces }
    requires room { vec_len labels.old ≡ 3 * table.now.faces }
    requires real { label < free_entry }
    requires looks { 2 * unlabelled labels.old.items + 1 ≤ looks.old.left }
    ensures len { vec_len labels.new ≡ vec_len labels.old }
    ensures right { (before : List ℕ) → IsReady (gluing_of table.now) label before (side_at start) → IsLeftDone (gluing_of table.now) label before labels.old.items (side_at start) true → IsWhole (gluing_of table.now) label before labels.new.items (side_at start) }
    ensures looks { 2 * unlabelled labels.new.items ≤ looks.new.left }
{
    let mut at = start;
    'rightwards: loop {
        match table.right_of(at, looks) {
            None => return,
            Some(found) => {
                if label_of(labels, found) != NONE {
                    return;
                }
                labels[found as usize] = label;
                at = found;
            }
        }
    }
}

/// Labels the whole fan of corner `start`; whether it meets a boundary. It takes a look for each corner, and
/// one more where the fan ends.
fn label_fan(
    table: &SideTable,
    labels: &mut Vec<u32>,
    start: u32,
    label: u32,
    looks: &mut Looks,
) -> bool
    requires gluing { IsGluing table.now.faces (gluing_of table.now) }
    requires start { start < 3 * table.now.faces }
    requires room { vec_len labels.old ≡ 3 * table.now.faces }
    requires real { label < free_entry }
    requires fresh { get_or labels.old.items start free_entry ≡ free_entry }
    requires looks { 2 * unlabelled labels.old.items ≤ looks.old.left }
    ensures len { vec_len labels.new ≡ vec_len labels.old }
    ensures fan { IsReady (gluing_of table.now) label labels.old.items (side_at start) → IsFanLabelled (gluing_of table.now) label labels.old.items labels.new.items (side_at start) result }
    ensures looks { 2 * unlabelled labels.new.items ≤ looks.new.left }
{
    let open = label_left(table, labels, start, label, looks);
    if open {
        label_right(table, labels, start, label, looks);
    }
    open
}

impl SideTable {
    /// Labels the vertices: a class for each fan, and of each class whether a free side meets it. Classes
    /// are numbered from 0 in the order of their fans' least corners, which is this project's own choice.
    /// Takes memory for a number for each corner and a mark for each class, and fails only when out of
    /// memory. At most two entries are looked at for each corner, and the call counts as many steps as
    /// `across` does.
    pub fn label_vertices<L: Ledger>(
        &self,
        alloc: Global,
        steps: &mut Steps<L>,
    ) -> Result<Classes, Memory>
        ensures labels { IfOk result (λ c. IsLabelled self.now.faces (gluing_of self.now) c.of_corner c.count c.ends) }
        ensures steps { steps.new ≡ steps.old + length self.now.entries }
    {
        let mut looks = steps.count(self.entry_count());
        let corners = 3 * self.face_count();
        let mut labels = filled(alloc, NONE, corners as usize)?;
        let mut ends = Vec::new(alloc);
        let mut count = 0u32;
        for corner in 0..corners {
            if label_of(&labels, corner) == NONE {
                let open = label_fan(self, &mut labels, corner, count, &mut looks);
                ends.push(open)?;
                count += 1;
            }
        }
        Ok(Classes {
            of_corner: Sequence::from_vec(labels),
            count,
            ends: Sequence::from_vec(ends),
        })
    }
}
