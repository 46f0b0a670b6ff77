//! A cloud with its points in another order.

ghost use Rattle.std.specs.Prelude.{◌≡◌, IfOk, length};
ghost use Rattle.mesh_model.specs.Parts.{cells_of};
ghost use Rattle.mesh_model.specs.Renumbering.{NamesApart};
ghost use Rattle.drc_recode.specs.FirstOrder.{reordered};

use attr_heads::Head;
use drc_base::Memory;
use mesh_model::Cloud;
use std::alloc::Global;

/// Equal heads.
pub fn copies_of(alloc: Global, heads: &[Head]) -> Result<Vec<Head>, Memory>
    ensures { IfOk result (λ v. v.items ≡ heads.now) }
{
    let mut copies = Vec::with_capacity(alloc, heads.len())?;
    for head in heads {
        copies.push(head.copy(alloc)?)?;
    }
    Ok(copies)
}

/// The integers of the points of a cloud in the order of the rows, point after point.
fn cells_in_order(alloc: Global, cloud: &Cloud, rows: &[(u32, u8)]) -> Result<Vec<i32>, Memory>
    requires { NamesApart (length cloud.now.points) rows.now }
    ensures { IfOk result (λ v. v.items ≡ cells_of (reordered cloud.now rows.now).points) }
{
    let count = cloud.point_count();
    let mut cells = Vec::with_capacity(alloc, count as usize * cloud.width() as usize)?;
    for (point, _turn) in rows {
        cells.extend_from_slice(cloud.point(*point))?;
    }
    Ok(cells)
}

/// The cloud with its points in the order of the rows.
pub fn reordered_cloud(alloc: Global, cloud: &Cloud, rows: &[(u32, u8)]) -> Result<Cloud, Memory>
    requires { NamesApart (length cloud.now.points) rows.now }
    ensures { IfOk result (λ c. c ≡ reordered cloud.now rows.now) }
{
    let heads = copies_of(alloc, cloud.heads())?;
    let cells = cells_in_order(alloc, cloud, rows)?;
    Ok(Cloud::of_typed(heads, cells).unwrap())
}
