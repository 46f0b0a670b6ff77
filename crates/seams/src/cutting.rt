//! A surface cut at its seams, and its classes of corners.

ghost use Rattle.std.specs.Prelude.{◌≡◌, ◌*◌, ◌<◌, ◌≤◌, length, IfOk};
ghost use Rattle.std.specs.Option.{option_map};
ghost use Rattle.drc_base.specs.declared.limits.TheConstants.{MAX_FACES as most_faces};
ghost use Rattle.corner_table.specs.Sides.{IsGluing, side_at};
ghost use Rattle.corner_table.specs.Table.{gluing_of, glued_in, other_at};
ghost use Rattle.corner_table.specs.Labels.{IsLabelled};
ghost use Rattle.seams.specs.Seams.{AreFlags, MayBeFlags, flag_at, unseamed, unseamed_by};

use crate::sides::{flag_of, sides_across};
use corner_table::{Classes, FREE, SideTable, Steps};
use drc_base::Memory;
use std::alloc::Global;
use std::marker::Brand;
use std::sync::ledger::{Blank, Ledger};

/// The entry that a side has once the surface is cut: that of before, or `FREE` at a seam. Both are
/// read before the flag is, so that one of them is chosen without a branch.
#[tactic(auto, using(crate::proofs::Kept::kept_some))]
fn kept_entry(across: &[u32], seam: &[bool], side: u32) -> u32
    requires entry { side < length across.now }
    requires flag { side < length seam.now }
    ensures { other_at result ≡ unseamed (flag_at seam.now) (glued_in across.now) (side_at side) }
{
    let other = across[side as usize];
    if flag_of(seam, side) { FREE } else { other }
}

/// The entries that the sides of these faces have once the surface is cut.
fn kept_pairs(alloc: Global, across: &[u32], faces: u32, seam: &[bool]) -> Result<Vec<u32>, Memory>
    requires few { faces ≤ most_faces }
    requires gluing { IsGluing faces (glued_in across.now) }
    requires room { 3 * faces ≤ length across.now }
    requires flags { AreFlags faces (glued_in across.now) seam.now }
    ensures each { IfOk result (λ v. length v.items ≡ 3 * faces) }
    ensures pairs { IfOk result (λ v. glued_in v.items ≡ unseamed (flag_at seam.now) (glued_in across.now)) }
    ensures gluing { IfOk result (λ v. IsGluing faces (glued_in v.items)) }
{
    let count = 3 * faces;
    let mut pairs = Vec::with_capacity(alloc, count as usize)?;
    for side in 0..count {
        pairs.push_reserved(kept_entry(across, seam, side));
    }
    Ok(pairs)
}

/// The surface cut at its seams: a table with as many faces whose pairs are those that are no seam. Its
/// boundary has the sides of the seams. Fails only when out of memory (this project's choice).
pub fn unseamed(alloc: Global, t: &SideTable, seam: &[bool]) -> Result<SideTable, Memory>
    requires { AreFlags t.now.faces (gluing_of t.now) seam.now }
    ensures faces { IfOk result (λ u. u.faces ≡ t.now.faces) }
    ensures pairs { IfOk result (λ u. gluing_of u ≡ unseamed (flag_at seam.now) (gluing_of t.now)) }
{
    let faces = t.face_count();
    let pairs = kept_pairs(alloc, sides_across(t), faces, seam)?;
    Ok(SideTable::with_pairs(faces, pairs))
}

/// The labels of a table's vertices, under a count of calls that nothing else takes part in.
fn labels_of<L: Ledger>(alloc: Global, t: &SideTable, blank: Blank) -> Result<Classes, Memory>
    requires name { blank.name ≡ L.name }
    requires parts { blank.parts ≡ L.parts }
    requires some { 0 < L.parts }
    ensures { IfOk result (λ c. IsLabelled t.now.faces (gluing_of t.now) c.of_corner c.count c.ends) }
{
    let mut steps = Steps::<L>::new(blank);
    t.label_vertices(alloc, &mut steps)
}

/// The classes of corners: what is connected round a vertex over glued sides that are no seam, so that a
/// class is a fan of the surface cut at its seams; without flags nothing is cut, and a class is a vertex.
/// `ends` says of a class whether a boundary or a seam meets it. Classes are numbered from 0 in the order
/// of their least corners, which is this project's choice. Fails only when out of memory (Draco
/// Bitstream Specification 2.2, section Edgebreaker Connectivity, attribute seams).
pub fn classes(alloc: Global, t: &SideTable, seam: Option<&[bool]>) -> Result<Classes, Memory>
    requires { MayBeFlags t.now.faces (gluing_of t.now) (option_map (λ s. s.now) seam) }
    ensures { IfOk result (λ c. IsLabelled t.now.faces (unseamed_by (option_map (λ s. s.now) seam.entry) (gluing_of t.now)) c.of_corner c.count c.ends) }
{
    match seam {
        None => labels_of::<Brand>(alloc, t, Blank::new(1)),
        Some(flags) => {
            let cut = unseamed(alloc, t, flags)?;
            labels_of::<Brand>(alloc, &cut, Blank::new(1))
        }
    }
}
