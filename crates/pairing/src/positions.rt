//! The positions of corners as numbers.
//!
//! A point has the number of the first one with the same integers of the first attribute, and a corner has the number of
//! its point.

ghost use Rattle.std.specs.Prelude.{◌≡◌, ◌≤◌, IfOk};
ghost use Rattle.attr_heads.specs.Head.{width_of};
ghost use Rattle.pairing.specs.Pairing.{first_width};
ghost use Rattle.pairing.specs.Positions.{ArePointNumbers, AreCornerNumbers};

use attr_heads::Head;
use drc_base::Memory;
use mesh_model::CornerMesh;
use std::alloc::Global;

/// How many integers the first attribute has.
#[tactic(auto, using(crate::proofs::Widths::first_width_le))]
pub(crate) fn first_width(heads: &[Head]) -> u32
    ensures width { result ≡ first_width heads.now }
    ensures narrow { result ≤ width_of heads.now }
{
    match heads.first() {
        Some(head) => u32::from(head.comps),
        None => 0,
    }
}

/// The numbers of points by their positions.
fn point_numbers(alloc: Global, m: &CornerMesh) -> Result<Vec<u32>, Memory>
    ensures { IfOk result (λ numbers. ArePointNumbers m.now.points (first_width m.now.heads) numbers.items) }
{
    let numbers = m.first_points(alloc, first_width(m.heads()))?;
    Ok(numbers)
}

/// The numbers of corners by their positions.
pub(crate) fn corner_numbers(alloc: Global, m: &CornerMesh) -> Result<Vec<u32>, Memory>
    ensures { IfOk result (λ numbers. AreCornerNumbers m.now numbers.items) }
{
    let of_point = point_numbers(alloc, m)?;
    let mut numbers = Vec::with_capacity(alloc, 3 * m.face_count() as usize)?;
    for f in 0..m.face_count() {
        let face = m.face(f);
        numbers.push_reserved(of_point[face[0] as usize]);
        numbers.push_reserved(of_point[face[1] as usize]);
        numbers.push_reserved(of_point[face[2] as usize]);
    }
    Ok(numbers)
}
