//! The order that a walk leaves: the corners of its entries, the entry of each class, and the face across
//! from each entry.

ghost use Rattle.std.specs.Prelude.{◌≡◌, IfOk, length};
ghost use Rattle.corner_table.specs.Ordered.{AreFaces, ordered_from};
ghost use Rattle.walk_order.specs.Orders.{corners_in, IsOrderOf};
ghost use Rattle.walk_order.specs.Stored.{marked_entries, IsSurface, IsStored, AllHaveEntries};

use crate::marks::Marks;
use crate::surface::Surface;
use corner_table::Order;
use drc_base::Sequence;

/// The order that a walk leaves in which every class got an entry.
pub(crate) fn order_of(s: &Surface<'_>, marks: Marks) -> Order
    requires surface { IsSurface s.now }
    requires stored { IsStored s.now marks }
    requires all { AllHaveEntries s.now.labels.now (marked_entries marks) (length s.now.ends.now) }
    ensures entries { corners_in result ≡ marked_entries marks }
    ensures classes { IsOrderOf s.now.faces s.now.labels.now (length s.now.ends.now) result }
    ensures faces { AreFaces (ordered_from s.now.across.now s.now.labels.now result.entry_of_class (corners_in result)) result.faces_across }
{
    Order {
        corner_of_entry: Sequence::from_vec(marks.entries),
        entry_of_class: Sequence::from_vec(marks.entry_of_class),
        faces_across: Sequence::from_vec(marks.faces_across),
    }
}
