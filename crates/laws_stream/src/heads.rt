//! What holds of the heads of each geometry that is in memory.

ghost use Rattle.std.specs.Prelude.{◌<◌, ◌^◌, Some, All};
ghost use Rattle.attr_section.specs.Written.{QuantFits};
ghost use Rattle.mesh_model.specs.Contents.{heads_in};
ghost use Rattle.mesh_model.specs.IsGeometry.{IsGeometry};
ghost use Rattle.laws_attr.specs.Laws.{HeadFits};
ghost use Rattle.laws_stream.specs.Laws.{IsByte};

use attr_heads::{Head, Quant};
use mesh_model::Geometry;

/// Numbers of 32 bits have 32 bits.
fn numbers_fit(numbers: &[u32])
    ensures { All (λ n. n < 2 ^ 32) numbers.now }
{
    // For the prover alone, who sees what the type of a number says where it is read.
    for number in numbers {
        let _number = *number;
    }
}

/// The numbers of a quantisation have 32 bits.
fn quant_fits(quant: &Quant)
    ensures { QuantFits (Some quant.now) }
{
    // For the prover alone, as above.
    let _range = quant.range;
    numbers_fit(quant.min.as_slice());
}

/// The numbers of a head have 32 bits, and its flag is a byte.
fn head_fits(head: &Head)
    ensures fits { HeadFits head.now }
    ensures flag { IsByte head.now.normalized }
{
    // For the prover alone, as above.
    let _flag = head.normalized;
    let _id = head.id;
    match &head.quant {
        None => {}
        Some(quant) => quant_fits(quant),
    }
}

/// The numbers of heads have 32 bits, and their flags are bytes.
fn heads_fit(heads: &[Head])
    ensures fit { All HeadFits heads.now }
    ensures flags { All (λ h. IsByte h.normalized) heads.now }
{
    for head in heads {
        head_fits(head);
    }
}

/// What the laws of streams ask of a geometry holds of each one that is in memory.
pub fn geometry_fits(g: &Geometry)
    ensures geometry { IsGeometry g.now }
    ensures heads { All HeadFits (heads_in g.now) }
    ensures flags { All (λ h. IsByte h.normalized) (heads_in g.now) }
{
    match g {
        Geometry::Mesh(mesh) => heads_fit(mesh.heads()),
        Geometry::Cloud(cloud) => heads_fit(cloud.heads()),
    }
}
