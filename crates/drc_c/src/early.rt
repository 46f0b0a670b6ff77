//! The faults of arrays that come before out of memory.

ghost use Rattle.std.specs.Prelude.{◌≡◌, ◌<◌, ◌≤◌, ◌/◌, length, map, OnOk, IfOk};
ghost use Rattle.attr_heads.specs.FirstFault.{Tests};
ghost use Rattle.attr_heads.specs.Quants.{has_bits};
ghost use Rattle.attr_heads.specs.Octahedra.{has_coordinates, has_square_bits};
ghost use Rattle.attr_heads.specs.Head.{has_type, head_fault, each_fault, heads_fault};
ghost use Rattle.mesh_model.specs.Parts.{count_fault, faces_fault};
ghost use Rattle.drc_c.specs.Heads.{head_meant};
ghost use Rattle.drc_c.specs.Inputs.{width_told};
ghost use Rattle.drc_c.specs.Early.{arrays_early_fault};

use crate::heads::{DrcHead, is_quantised, octa_meant};
use crate::inputs::{MESH, width_told};
use attr_heads::{
    OCTAHEDRAL_INTEGERS, are_octahedral_bits, are_quant_bits, has_comps, is_float, is_integer,
    is_usage,
};
use drc_base::{Fault, Kind, MAX_ATTRIBUTES, MAX_FACES, MAX_POINTS, MAX_VALUES};

/// Whether a head's data type is one, and one of floats where the head has a square.
fn has_type(head: &DrcHead) -> bool
    ensures { result ≡ has_type head.now.dtype (head_meant head.now).quant (head_meant head.now).octa }
{
    match octa_meant(head.octahedral_bits) {
        None => is_float(head.dtype) || is_integer(head.dtype),
        Some(_) => is_float(head.dtype),
    }
}

/// Whether a head with a square has its two coordinates.
fn has_coordinates(head: &DrcHead) -> bool
    ensures { result ≡ has_coordinates head.now.comps (head_meant head.now).octa }
{
    match octa_meant(head.octahedral_bits) {
        None => true,
        Some(_) => head.comps == OCTAHEDRAL_INTEGERS,
    }
}

/// Whether the bits of a head's quantisation, where it has one, are 1 to 30.
fn has_bits(head: &DrcHead) -> bool
    ensures { result ≡ has_bits (head_meant head.now).quant }
{
    if is_quantised(head) {
        return are_quant_bits(head.bits);
    }
    true
}

/// Whether the bits of a head's square, where it has one, are 2 to 30.
fn has_square_bits(head: &DrcHead) -> bool
    ensures { result ≡ has_square_bits (head_meant head.now).octa }
{
    match octa_meant(head.octahedral_bits) {
        None => true,
        Some(bits) => are_octahedral_bits(bits),
    }
}

/// The first fault of head `k`.
#[tactic(auto, using(crate::proofs::EarlyFaults::minima_there))]
fn test_head(k: usize, head: &DrcHead) -> Result<(), Fault>
    ensures { Tests (head_fault k (head_meant head.now)) result }
{
    let at = k as u64;
    if !is_usage(head.usage) {
        return Err(Fault::new(Kind::AttrType, at));
    }
    if !has_type(head) {
        return Err(Fault::new(Kind::DataType, at));
    }
    if !has_comps(head.comps) || !has_coordinates(head) {
        return Err(Fault::new(Kind::Components, at));
    }
    if !has_bits(head) || !has_square_bits(head) {
        return Err(Fault::new(Kind::QuantBits, at));
    }
    Ok(())
}

/// The first fault of each head in turn.
fn test_each_head(heads: &[DrcHead]) -> Result<(), Fault>
    ensures { Tests (each_fault 0 (map head_meant heads.now)) result }
{
    for (k, head) in heads.iter().enumerate() {
        test_head(k, head)?;
    }
    Ok(())
}

/// The first fault of heads.
#[tactic(auto, unfolding(attr_heads::specs::Head::heads_fault))]
fn test_heads(heads: &[DrcHead]) -> Result<(), Fault>
    ensures tested { Tests (heads_fault (map head_meant heads.now)) result }
    ensures few { OnOk result (length heads.now ≤ 16) }
{
    let at = heads.len() as u64;
    if heads.is_empty() {
        return Err(Fault::new(Kind::NoAttribute, at));
    }
    if at > MAX_ATTRIBUTES as u64 {
        return Err(Fault::new(Kind::AttrLimit, at));
    }
    test_each_head(heads)
}

/// How many integers a point has, or the first fault of the heads.
#[tactic(auto, using(crate::proofs::EarlyFaults::width_bounds))]
fn tested_width(heads: &[DrcHead]) -> Result<u32, Fault>
    ensures tested { Tests (heads_fault (map head_meant heads.now)) result }
    ensures width { IfOk result (λ width. width ≡ width_told heads.now) }
    ensures bounds { IfOk result (λ width. (0 < width) × (width ≤ 128)) }
{
    test_heads(heads)?;
    Ok(width_told(heads))
}

/// The fault of too many points, or of too many values.
fn test_counts(values: &[i32], width: u32) -> Result<(), Fault>
    requires some { 0 < width }
    requires few { width ≤ 128 }
    ensures { Tests (count_fault (length values.now / width) width) result }
{
    let points = values.len() as u64 / width as u64;
    if points > MAX_POINTS as u64 {
        return Err(Fault::new(Kind::PointLimit, points));
    }
    let count = points * width as u64;
    if count > MAX_VALUES as u64 {
        return Err(Fault::new(Kind::ValueLimit, count));
    }
    Ok(())
}

/// The fault of too many faces.
fn test_faces(corners: &[[u32; 3]]) -> Result<(), Fault>
    ensures { Tests (faces_fault corners.now) result }
{
    let count = corners.len() as u64;
    if count > MAX_FACES as u64 {
        return Err(Fault::new(Kind::FaceLimit, count));
    }
    Ok(())
}

/// The first fault of arrays that comes before out of memory: of the heads, then of the numbers of points,
/// of values and of faces.
#[tactic(auto, unfolding(crate::specs::Early::arrays_early_fault))]
pub fn test_early(
    mesh: u32,
    heads: &[DrcHead],
    corners: &[[u32; 3]],
    values: &[i32],
) -> Result<(), Fault>
    ensures { Tests (arrays_early_fault mesh heads.now corners.now values.now) result }
{
    let width = tested_width(heads)?;
    test_counts(values, width)?;
    if mesh == MESH {
        test_faces(corners)?;
    }
    Ok(())
}
