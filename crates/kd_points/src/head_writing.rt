//! Writing what stands in front of the tree.

ghost use Rattle.std.specs.Prelude.{◌≡◌, ◌<◌, ◌^◌, ◌++◌, All, OnOk, IfOk, flat_map};
ghost use Rattle.drc_bits.specs.Bits.{low_bytes};
ghost use Rattle.kd_points.specs.Extents.{extents_of};
ghost use Rattle.kd_points.specs.Laws.{KdHeadFits, KdQuantFits};
ghost use Rattle.kd_points.specs.Written.{kd_quant_bytes, kd_head_bytes, extent_bytes, kd_header_bytes};

use crate::extents::Extent;
use crate::headers::{MAGIC, VERSION};
use attr_heads::{Head, Quant, put_bare_head};
use drc_base::Memory;
use drc_bits::put_var32;
use mesh_model::Cloud;
use std::alloc::Global;

/// Appends a number of four bytes.
fn put_u32(out: &mut Vec<u8>, x: u32) -> Result<(), Memory>
    ensures { OnOk result (out.new.items ≡ out.old.items ++ low_bytes 4 x) }
{
    out.extend_from_slice(&x.to_le_bytes())?;
    Ok(())
}

/// Appends minima.
fn put_minima(out: &mut Vec<u8>, minima: &[u32]) -> Result<(), Memory>
    ensures bytes { OnOk result (out.new.items ≡ out.old.items ++ flat_map (low_bytes 4) minima.now) }
    ensures fields { OnOk result (All (λ m. m < 2 ^ 32) minima.now) }
{
    for minimum in minima {
        put_u32(out, *minimum)?;
    }
    Ok(())
}

/// Appends a quantisation: bits, range, minima.
fn put_quant(out: &mut Vec<u8>, quant: &Quant) -> Result<(), Memory>
    ensures bytes { OnOk result (out.new.items ≡ out.old.items ++ kd_quant_bytes (Some quant.now)) }
    ensures fields { OnOk result (KdQuantFits (Some quant.now)) }
{
    out.push(quant.bits)?;
    put_u32(out, quant.range)?;
    put_minima(out, quant.min.as_slice())?;
    Ok(())
}

/// Appends the quantisation of a head, where it has one.
fn put_quant_of(out: &mut Vec<u8>, head: &Head) -> Result<(), Memory>
    ensures bytes { OnOk result (out.new.items ≡ out.old.items ++ kd_quant_bytes head.now.quant) }
    ensures fields { OnOk result (KdQuantFits head.now.quant) }
{
    match &head.quant {
        None => Ok(()),
        Some(quant) => put_quant(out, quant),
    }
}

/// Appends a head.
fn put_head(out: &mut Vec<u8>, head: &Head) -> Result<(), Memory>
    ensures bytes { OnOk result (out.new.items ≡ out.old.items ++ kd_head_bytes head.now) }
    ensures fields { OnOk result (KdHeadFits head.now) }
{
    put_bare_head(out, head)?;
    put_quant_of(out, head)?;
    Ok(())
}

/// Appends heads.
fn put_heads(out: &mut Vec<u8>, heads: &[Head]) -> Result<(), Memory>
    ensures bytes { OnOk result (out.new.items ≡ out.old.items ++ flat_map kd_head_bytes heads.now) }
    ensures fields { OnOk result (All KdHeadFits heads.now) }
{
    for head in heads {
        put_head(out, head)?;
    }
    Ok(())
}

/// Appends an extent.
fn put_extent(out: &mut Vec<u8>, extent: Extent) -> Result<(), Memory>
    ensures { OnOk result (out.new.items ≡ out.old.items ++ extent_bytes extent) }
{
    out.extend_from_slice(&extent.least.to_le_bytes())?;
    out.push(extent.bits)?;
    Ok(())
}

/// Appends extents.
fn put_extents(out: &mut Vec<u8>, extents: &[Extent]) -> Result<(), Memory>
    ensures { OnOk result (out.new.items ≡ out.old.items ++ flat_map extent_bytes extents.now) }
{
    for extent in extents {
        put_extent(out, *extent)?;
    }
    Ok(())
}

/// What stands in front of the tree of a cloud with these extents.
#[tactic(auto, unfolding(crate::specs::Written::kd_header_bytes))]
pub fn write_header(alloc: Global, cloud: &Cloud, extents: &[Extent]) -> Result<Vec<u8>, Memory>
    requires { extents.now ≡ extents_of cloud.now }
    ensures bytes { IfOk result (λ v. v.items ≡ kd_header_bytes cloud.now) }
    ensures fields { OnOk result (All KdHeadFits cloud.now.heads) }
{
    let heads = cloud.heads();
    let mut out = Vec::new(alloc);
    out.extend_from_slice(&MAGIC)?;
    out.push(VERSION)?;
    out.extend_from_slice(&put_var32(heads.len() as u32))?;
    put_heads(&mut out, heads)?;
    out.extend_from_slice(&put_var32(cloud.point_count()))?;
    put_extents(&mut out, extents)?;
    Ok(out)
}
