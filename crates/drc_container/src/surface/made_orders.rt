//! The orders of a surface's entries, each made once.

ghost use Rattle.std.specs.Prelude.{◌≡◌, ℕ, List, None, IfOk, IfSome};
ghost use Rattle.corner_table.specs.Labels.{IsLabelled};
ghost use Rattle.corner_table.specs.Table.{Table, gluing_of};
ghost use Rattle.drc_container.specs.surface.MadeOrders.{IsOrderBy, AreOrders};

use crate::surface::ordering::order_over;
use corner_table::{Classes, Order, SideTable};
use drc_base::Memory;
use std::alloc::Global;

/// The orders of a surface's entries that were made.
#[derive(Debug, Drop)]
pub struct MadeOrders {
    /// Depth first.
    pub depth_first: Option<Order>,
    /// By prediction degree.
    pub by_degree: Option<Order>,
}

impl MadeOrders {
    /// No order was made.
    pub fn none() -> MadeOrders
        ensures { (t : Table) (labels : List ℕ) → AreOrders t labels result }
    {
        MadeOrders {
            depth_first: None,
            by_degree: None,
        }
    }

    /// Takes the order by this walk out, where it was made.
    fn take(&mut self, degree: bool) -> Option<Order>
        ensures taken { (t : Table) (labels : List ℕ) → AreOrders t labels self.old → IfSome result (IsOrderBy t labels degree) }
        ensures kept { (t : Table) (labels : List ℕ) → AreOrders t labels self.old → AreOrders t labels self.new }
    {
        if degree {
            return self.by_degree.take();
        }
        self.depth_first.take()
    }

    /// Keeps the order by this walk.
    pub fn keep(&mut self, degree: bool, order: Order)
        ensures { (t : Table) (labels : List ℕ) → AreOrders t labels self.old → IsOrderBy t labels degree order → AreOrders t labels self.new }
    {
        if degree {
            self.by_degree = Some(order);
        } else {
            self.depth_first = Some(order);
        }
    }
}

/// The order of the entries of a surface with these classes, by prediction degree or depth first: the one that was made, which is
/// taken out, or a new one.
pub fn order_once(
    alloc: Global,
    t: &SideTable,
    labels: &Classes,
    degree: bool,
    made: &mut MadeOrders,
) -> Result<Order, Memory>
    requires labels { IsLabelled t.now.faces (gluing_of t.now) labels.now.of_corner labels.now.count labels.now.ends }
    requires made { AreOrders t.now labels.now.of_corner made.old }
    ensures order { IfOk result (IsOrderBy t.now labels.now.of_corner degree) }
    ensures made { AreOrders t.now labels.now.of_corner made.new }
{
    match made.take(degree) {
        Some(order) => Ok(order),
        None => order_over(alloc, t, labels, degree),
    }
}
