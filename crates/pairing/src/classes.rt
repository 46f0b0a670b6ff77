//! The classes of sides: those that run the same way between the same positions.
//!
//! Edges are distinguished by their lower and their higher position, and counted in the order of
//! their first sides. Edge e has the classes 2e, for sides that run upwards, and 2e + 1.

ghost use Rattle.std.specs.Prelude.{◌≡◌, ◌≢◌, ℕ, ◌+◌, ◌-◌, ◌*◌, ◌/◌, ◌%◌, ◌^◌, ◌<◌, ◌≤◌, IfOk, length, slice_index, vec_len, min, max, if◌then◌else◌, nat_lt};
ghost use Rattle.drc_base.specs.declared.limits.TheConstants.{MAX_FACES as most_faces};
ghost use Rattle.corner_table.specs.Sides.{first, second, third, side, next, prev, number, side_at};
ghost use Rattle.pairing.specs.Positions.{position_in, AreTriangles};
ghost use Rattle.pairing.specs.Classes.{class_at, reversed, AreBounds, AreClasses};

use drc_base::Memory;
use first_items::number_pairs;
use std::alloc::Global;

/// The position at which side `x` starts: that of the next corner.
fn start_of(numbers: &[u32], faces: u32, x: u32) -> u32
    requires few { faces ≤ most_faces }
    requires triangles { AreTriangles faces numbers.now }
    requires side { x < 3 * faces }
    ensures { result ≡ position_in numbers.now (next (side_at x)) }
{
    let corner = if x % 3 == 2 { x - 2 } else { x + 1 };
    numbers[corner as usize]
}

/// The positions of the corners of face `f`.
fn positions_of(numbers: &[u32], faces: u32, f: u32) -> (u32, u32, u32)
    requires few { faces ≤ most_faces }
    requires triangles { AreTriangles faces numbers.now }
    requires face { f < faces }
    ensures first { result.0 ≡ position_in numbers.now (side f first) }
    ensures second { result.1 ≡ position_in numbers.now (side f second) }
    ensures third { result.2 ≡ position_in numbers.now (side f third) }
{
    let x = 3 * f as usize;
    (numbers[x], numbers[x + 1], numbers[x + 2])
}

/// The lower and the higher position of each side.
fn bounds_of(alloc: Global, numbers: &[u32], faces: u32) -> Result<(Vec<u32>, Vec<u32>), Memory>
    requires few { faces ≤ most_faces }
    requires triangles { AreTriangles faces numbers.now }
    ensures { IfOk result (λ bounds. AreBounds numbers.now bounds.0.items bounds.1.items) }
{
    let mut lows = Vec::with_capacity(alloc, numbers.len())?;
    let mut highs = Vec::with_capacity(alloc, numbers.len())?;
    for f in 0..faces {
        let (p, q, r) = positions_of(numbers, faces, f);
        lows.push_reserved(q.min(r));
        lows.push_reserved(r.min(p));
        lows.push_reserved(p.min(q));
        highs.push_reserved(q.max(r));
        highs.push_reserved(r.max(p));
        highs.push_reserved(p.max(q));
    }
    Ok((lows, highs))
}

/// The classes of sides, and a number above them all.
#[derive(Drop)]
pub(crate) struct Classes {
    /// The class of each side.
    pub of: Vec<u32>,
    /// The classes are below this even number.
    pub count: u32,
}

/// The class of a side of an edge that starts at `start`.
fn class_at(edge: u32, start: u32, low: u32) -> u32
    requires { edge < 3 * most_faces }
    ensures { result ≡ class_at edge start low }
{
    if start == low { 2 * edge } else { 2 * edge + 1 }
}

/// The edge of side `x`: a new one where it is the first side of its edge, or else that of the first
/// side. Sides before `x` have their classes in the list, the others their first sides.
fn edge_of(of: &[u32], x: u32, edges: u32) -> u32
    requires side { x < length of.now }
    requires first { slice_index of.now x ≤ x }
    ensures new { slice_index of.now x ≡ x → result ≡ edges }
    ensures old { slice_index of.now x ≢ x → result ≡ slice_index of.now (slice_index of.now x) / 2 }
{
    let first = of[x as usize];
    let known = of[first as usize] / 2;
    if first == x { edges } else { known }
}

/// Puts each side in its class; the numbers are below `bound`.
pub(crate) fn classes_of(
    alloc: Global,
    numbers: &[u32],
    bound: u32,
    faces: u32,
) -> Result<Classes, Memory>
    requires few { faces ≤ most_faces }
    requires triangles { AreTriangles faces numbers.now }
    requires below { (x : ℕ) → x < length numbers.now → slice_index numbers.now x < bound }
    ensures classes { IfOk result (λ classes. AreClasses numbers.now classes.of.items classes.count) }
    ensures count { IfOk result (λ classes. classes.count ≤ 6 * faces) }
{
    let (lows, highs) = bounds_of(alloc, numbers, faces)?;
    let bounds = (bound, bound);
    let mut of = number_pairs(alloc, lows.as_slice(), highs, bounds)?;
    let mut edges = 0;
    for x in 0..3 * faces {
        let edge = edge_of(of.as_slice(), x, edges);
        let start = start_of(numbers, faces, x);
        of[x as usize] = class_at(edge, start, lows[x as usize]);
        edges = edges.max(edge + 1);
    }
    Ok(Classes {
        of,
        count: 2 * edges,
    })
}

/// The class of the sides that run the other way.
pub(crate) fn reversed(class: u32) -> u32
    requires { class < 6 * most_faces }
    ensures { result ≡ reversed class }
{
    if class % 2 == 0 { class + 1 } else { class - 1 }
}
