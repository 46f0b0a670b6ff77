//! The surface of a mesh.
//!
//! Sides take their turns in order. Each looks among the sides of the class that runs the other way
//! for the least one that is free and has another third position, and the two are noted as a pair. The
//! table is made of the pairs alone, once the lists of the turns are freed.

ghost use Rattle.std.specs.Prelude.{◌≡◌, ◌≢◌, ◌+◌, ◌*◌, ◌<◌, ◌≤◌, ◌↔◌, Ok, Err, Some, None, IfOk, length, replicate, false};
ghost use Rattle.drc_base.specs.declared.faults.Fault.{Fault as fault_value};
ghost use Rattle.drc_base.specs.declared.faults.Refusal.TheVariants as refusal;
ghost use Rattle.drc_base.specs.declared.limits.TheConstants.{MAX_FACES as most_faces};
ghost use Rattle.corner_table.specs.Sides.{side_at, unglued, glue, IsGluing};
ghost use Rattle.corner_table.specs.Fans.{IsProper};
ghost use Rattle.corner_table.specs.Table.{glued_in, gluing_of};
ghost use Rattle.pairing.specs.Pairing.{paired, pairing, same_position, PairsFit, NoneIsLeft};
ghost use Rattle.pairing.specs.Degenerate.{degenerate_fault};
ghost use Rattle.pairing.specs.Positions.{AreCornerNumbers, same_in};
ghost use Rattle.pairing.specs.Turns.{AreSides, IsUpTo};

use crate::choosing::{Places, Sides, choose};
use crate::classes::{classes_of, reversed};
use crate::degenerate::test_faces;
use crate::positions::corner_numbers;
use corner_table::{FREE, SideTable};
use drc_base::{Memory, Refusal};
use first_items::chains_of;
use mesh_model::CornerMesh;
use std::alloc::Global;

/// A list of this many sides, none of which is in a pair.
fn none_paired(alloc: Global, count: usize) -> Result<Vec<u32>, Memory>
    ensures each { IfOk result (λ pairs. length pairs.items ≡ count) }
    ensures unglued { IfOk result (λ pairs. glued_in pairs.items ≡ unglued) }
{
    Ok(vec![in alloc; FREE; count]?)
}

/// Notes two sides as a pair.
fn note_pair(pairs: &mut Vec<u32>, faces: u32, x: u32, y: u32)
    requires few { faces ≤ most_faces }
    requires each { length pairs.old.items ≡ 3 * faces }
    requires first { x < 3 * faces }
    requires second { y < 3 * faces }
    requires apart { x ≢ y }
    ensures each { length pairs.new.items ≡ 3 * faces }
    ensures glued { glued_in pairs.new.items ≡ glue (side_at x) (side_at y) (glued_in pairs.old.items) }
{
    pairs[x as usize] = y;
    pairs[y as usize] = x;
}

/// The turn of side `y`: it is glued to the least earlier side that it may take, if there is one.
fn take_turn(
    pairs: &mut Vec<u32>,
    faces: u32,
    sides: &Sides,
    places: &mut Places,
    count: u32,
    y: u32,
)
    requires each { length pairs.old.items ≡ 3 * faces }
    requires sides { AreSides faces sides.now.thirds.items sides.now.classes.items sides.now.nexts.items count }
    requires turn { y < 3 * faces }
    requires pairs { glued_in pairs.old.items ≡ paired (same_in sides.now.thirds.items) y }
    requires up_to { IsUpTo sides.now.thirds.items sides.now.classes.items count (glued_in pairs.old.items) places.old.taken.items places.old.firsts.items places.old.others.items }
    ensures each { length pairs.new.items ≡ 3 * faces }
    ensures pairs { glued_in pairs.new.items ≡ paired (same_in sides.now.thirds.items) (y + 1) }
    ensures up_to { IsUpTo sides.now.thirds.items sides.now.classes.items count (glued_in pairs.new.items) places.new.taken.items places.new.firsts.items places.new.others.items }
{
    let class = reversed(sides.classes[y as usize]);
    let third = sides.thirds[y as usize];
    match choose(sides, places, count, class, third, y) {
        None => {}
        Some(x) => {
            note_pair(pairs, faces, x, y);
            places.taken[x as usize] = true;
            places.taken[y as usize] = true;
        }
    }
}

/// The list of the pairs once all sides have had their turns.
fn paired_list(
    alloc: Global,
    faces: u32,
    sides: &Sides,
    places: Places,
    count: u32,
) -> Result<Vec<u32>, Memory>
    requires sides { AreSides faces sides.now.thirds.items sides.now.classes.items sides.now.nexts.items count }
    requires up_to { IsUpTo sides.now.thirds.items sides.now.classes.items count unglued places.taken.items places.firsts.items places.others.items }
    ensures each { IfOk result (λ pairs. length pairs.items ≡ 3 * faces) }
    ensures pairs { IfOk result (λ pairs. glued_in pairs.items ≡ paired (same_in sides.now.thirds.items) (3 * faces)) }
{
    let mut pairs = none_paired(alloc, 3 * faces as usize)?;
    let mut kept = places;
    for y in 0..3 * faces {
        take_turn(&mut pairs, faces, sides, &mut kept, count, y);
    }
    Ok(pairs)
}

/// What is known of the sides of a mesh, and the places at the beginning.
#[derive(Drop)]
struct Start {
    sides: Sides,
    places: Places,
    count: u32,
}

/// No side is taken.
fn none_taken(alloc: Global, count: usize) -> Result<Vec<bool>, Memory>
    ensures { IfOk result (λ v. v.items ≡ replicate count false) }
{
    Ok(vec![in alloc; false; count]?)
}

/// The sides of a mesh without degenerate faces.
fn start_of(alloc: Global, m: &CornerMesh) -> Result<Start, Memory>
    requires { degenerate_fault m.now ≡ None }
    ensures numbers { IfOk result (λ s. AreCornerNumbers m.now s.sides.thirds.items) }
    ensures sides { IfOk result (λ s. AreSides (length m.now.faces) s.sides.thirds.items s.sides.classes.items s.sides.nexts.items s.count) }
    ensures up_to { IfOk result (λ s. IsUpTo s.sides.thirds.items s.sides.classes.items s.count unglued s.places.taken.items s.places.firsts.items s.places.others.items) }
{
    let thirds = corner_numbers(alloc, m)?;
    let bound = m.point_count();
    let classes = classes_of(alloc, thirds.as_slice(), bound, m.face_count())?;
    let chains = chains_of(alloc, classes.of.as_slice(), classes.count)?;
    let taken = none_taken(alloc, thirds.len())?;
    let others = Vec::from_slice(alloc, chains.firsts.as_slice())?;
    Ok(Start {
        sides: Sides {
            thirds,
            classes: classes.of,
            nexts: chains.nexts,
        },
        places: Places {
            taken,
            firsts: chains.firsts,
            others,
        },
        count: classes.count,
    })
}

/// The pairs of a mesh without degenerate faces: for each side the number of the one that it is glued
/// to, and that of no side where it is free.
fn pairs_of(alloc: Global, m: &CornerMesh) -> Result<Vec<u32>, Memory>
    requires { degenerate_fault m.now ≡ None }
    ensures each { IfOk result (λ pairs. length pairs.items ≡ 3 * length m.now.faces) }
    ensures pairs { IfOk result (λ pairs. glued_in pairs.items ≡ pairing m.now) }
    ensures proper { IfOk result (λ pairs. IsProper (length m.now.faces) (glued_in pairs.items)) }
    ensures fits { IfOk result (λ pairs. PairsFit (same_position m.now) (glued_in pairs.items)) }
    ensures none_left { IfOk result (λ pairs. NoneIsLeft (length m.now.faces) (same_position m.now) (glued_in pairs.items)) }
{
    let Start {
        sides,
        places,
        count,
    } = start_of(alloc, m)?;
    let pairs = paired_list(alloc, m.face_count(), &sides, places, count)?;
    Ok(pairs)
}

/// The surface of a mesh without degenerate faces.
fn surface_of(alloc: Global, m: &CornerMesh) -> Result<SideTable, Memory>
    requires { degenerate_fault m.now ≡ None }
    ensures faces { IfOk result (λ t. t.faces ≡ length m.now.faces) }
    ensures pairs { IfOk result (λ t. gluing_of t ≡ pairing m.now) }
    ensures proper { IfOk result (λ t. IsProper t.faces (gluing_of t)) }
    ensures fits { IfOk result (λ t. PairsFit (same_position m.now) (gluing_of t)) }
    ensures none_left { IfOk result (λ t. NoneIsLeft t.faces (same_position m.now) (gluing_of t)) }
{
    let pairs = pairs_of(alloc, m)?;
    Ok(SideTable::with_pairs(m.face_count(), pairs))
}

/// The surface of a mesh: its faces, and its sides glued in pairs. Sides 3f + k take their turns in
/// order; each is glued to the least earlier free side that runs between the same two positions the
/// other way and whose third position is another. A position is what the first attribute has at a
/// point. So each pair may be one, no two sides that are left free may be, and the surface is proper (this
/// project's choice). Refusals: Degenerate at the first face with two equal positions,
/// and out of memory, which is reported only for meshes without such a face.
pub fn pair(alloc: Global, m: &CornerMesh) -> Result<SideTable, Refusal>
    ensures faces { IfOk result (λ t. t.faces ≡ length m.now.faces) }
    ensures pairs { IfOk result (λ t. gluing_of t ≡ pairing m.now) }
    ensures proper { IfOk result (λ t. IsProper t.faces (gluing_of t)) }
    ensures fits { IfOk result (λ t. PairsFit (same_position m.now) (gluing_of t)) }
    ensures none_left { IfOk result (λ t. NoneIsLeft t.faces (same_position m.now) (gluing_of t)) }
    ensures degenerate { (f : fault_value) → (result ≡ Err (refusal.Fault f)) ↔ (degenerate_fault m.now ≡ Some f) }
    ensures memory { result ≡ Err refusal.Memory → degenerate_fault m.now ≡ None }
{
    test_faces(m)?;
    Ok(surface_of(alloc, m)?)
}
