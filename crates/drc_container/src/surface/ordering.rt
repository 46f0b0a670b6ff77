//! How the entries of a surface are ordered.

ghost use Rattle.std.specs.Prelude.{◌≡◌, ◌<◌, ◌^◌, true, false, IfOk, length};
ghost use Rattle.corner_table.specs.Labels.{IsLabelled};
ghost use Rattle.corner_table.specs.Table.{gluing_of};
ghost use Rattle.walk_order.specs.Orders.{IsOrderOver};
ghost use Rattle.corner_table.specs.Ordered.{ordered, IsOrdered};
ghost use Rattle.drc_container.specs.reading.OnSurface.{ordered_by};

use corner_table::{Classes, Order, SideTable};
use drc_base::Memory;
use std::alloc::Global;
use walk_order::{depth_first, prediction_degree};

/// The order of the entries of a surface with these classes: by prediction degree, or depth first.
pub fn order_over(
    alloc: Global,
    t: &SideTable,
    labels: &Classes,
    degree: bool,
) -> Result<Order, Memory>
    requires { IsLabelled t.now.faces (gluing_of t.now) labels.now.of_corner labels.now.count labels.now.ends }
    ensures ordered { IfOk result (λ o. ordered t.now labels.now.of_corner o ≡ ordered_by degree t.now.faces (gluing_of t.now)) }
    ensures over { IfOk result (λ o. IsOrderOver t.now.faces labels.now.of_corner o) }
    ensures is { IfOk result (λ o. IsOrdered t.now labels.now.of_corner o) }
    ensures few { IfOk result (λ o. length o.corner_of_entry < 2 ^ 32) }
{
    if degree {
        return degree_order(alloc, t, labels);
    }
    depth_order(alloc, t, labels)
}

/// The order in which a surface with these classes is ordered depth first.
fn depth_order(alloc: Global, t: &SideTable, labels: &Classes) -> Result<Order, Memory>
    requires { IsLabelled t.now.faces (gluing_of t.now) labels.now.of_corner labels.now.count labels.now.ends }
    ensures ordered { IfOk result (λ o. ordered t.now labels.now.of_corner o ≡ ordered_by false t.now.faces (gluing_of t.now)) }
    ensures over { IfOk result (λ o. IsOrderOver t.now.faces labels.now.of_corner o) }
    ensures is { IfOk result (λ o. IsOrdered t.now labels.now.of_corner o) }
    ensures few { IfOk result (λ o. length o.corner_of_entry < 2 ^ 32) }
{
    // For the prover alone: the call states that the table is a surface, and the count that classes are few.
    let _faces = t.face_count();
    let _count = labels.count;
    let order = depth_first(alloc, t, labels)?;
    Ok(order)
}

/// The order in which a surface with these classes is ordered by prediction degree.
fn degree_order(alloc: Global, t: &SideTable, labels: &Classes) -> Result<Order, Memory>
    requires { IsLabelled t.now.faces (gluing_of t.now) labels.now.of_corner labels.now.count labels.now.ends }
    ensures ordered { IfOk result (λ o. ordered t.now labels.now.of_corner o ≡ ordered_by true t.now.faces (gluing_of t.now)) }
    ensures over { IfOk result (λ o. IsOrderOver t.now.faces labels.now.of_corner o) }
    ensures is { IfOk result (λ o. IsOrdered t.now labels.now.of_corner o) }
    ensures few { IfOk result (λ o. length o.corner_of_entry < 2 ^ 32) }
{
    // For the prover alone: the call states that the table is a surface, and the count that classes are few.
    let _faces = t.face_count();
    let _count = labels.count;
    let order = prediction_degree(alloc, t, labels)?;
    Ok(order)
}
