//! Meshes made of faces.

ghost use Rattle.std.specs.Prelude.{◌≡◌, ◌<◌, None};

use attr_heads::Head;
use drc_base::Refusal;
use mesh_model::CornerMesh;
use std::alloc::Global;

/// The head of positions of three integers of 32 bits each.
pub fn position_head() -> Head
    ensures { result ≡ record { usage = 0; dtype = 5; comps = 3; normalized = 0; id = 0; quant = None; octa = None } }
{
    Head {
        usage: 0,
        dtype: 5,
        comps: 3,
        normalized: 0,
        id: 0,
        quant: None,
        octa: None,
    }
}

/// A mesh of these faces, whose point i has the position (p, p * p, 0) for the number p at i. Points of equal
/// numbers have equal positions, and three different positions are never on a line.
pub fn mesh_at(alloc: Global, numbers: &[u8], faces: &[[u32; 3]]) -> Result<CornerMesh, Refusal> {
    let mut points = Vec::new(alloc);
    for p in numbers {
        let x = i32::from(*p);
        points.push(x)?;
        points.push(x * x)?;
        points.push(0)?;
    }
    let heads = vec![in alloc; position_head()]?;
    // each number gave three integers, so there is no part of a point
    if points.len() % 3 != 0 {
        return Err(Refusal::Memory);
    }
    CornerMesh::new(heads, points, faces.to_vec(alloc)?)
}

/// A mesh of these faces and so many points, whose point i has the position (i, i * i, 0).
pub fn mesh_of(alloc: Global, count: u8, faces: &[[u32; 3]]) -> Result<CornerMesh, Refusal> {
    let mut numbers = Vec::new(alloc);
    for p in 0..count {
        numbers.push(p)?;
    }
    mesh_at(alloc, numbers.as_slice(), faces)
}
