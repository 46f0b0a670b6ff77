//! A surface with the order of its entries.

ghost use Rattle.std.specs.Prelude.{◌<◌, ◌^◌, length};
ghost use Rattle.walk_order.specs.Orders.{IsOrderOver};
ghost use Rattle.corner_table.specs.Ordered.{ordered, IsOrdered};
ghost use Rattle.attr_section.specs.WrittenParts.{HasFewFlags};

use corner_table::{Classes, Order, SideTable};

/// A surface that values of attributes stand on, and the order of its entries, which is that of the values.
#[derive(Debug, Drop)]
pub struct OrderedSurface {
    /// The surface, cut at the seams of an attribute where its values belong to corners.
    pub sides: SideTable,
    /// The classes of its corners.
    pub classes: Classes,
    /// The corner of each entry, the entry of each class, and the face across from each entry.
    pub order: Order,
    ghost over: { IsOrderOver sides.faces classes.of_corner order },
    ghost is_ordered: { IsOrdered sides classes.of_corner order },
    ghost few_flags: { HasFewFlags (ordered sides classes.of_corner order) },
    ghost few_entries: { length order.corner_of_entry < 2 ^ 32 },
}
