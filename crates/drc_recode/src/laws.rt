//! What holds of the definitions themselves.

ghost use Rattle.drc_recode.specs.FirstOrder.{InvertedUndoes, FirstOrderStands, FirstOrderIsGeometry, FirstOrderIsSame};

use mesh_model::{renumbered_is_a_mesh, same_is_an_equivalence};

/// Rows turned back undo the rows: one after the other they are the plain rows. A geometry whose faces, or
/// points, are put back so has corner k + turn of the face that row i names where corner k of face i was
/// (or the point that row i names where point i was), with the same points; it is a geometry; and where
/// it was another one by these rows, it has the faces or points of that one again, in the order of that one, with
/// no turn. This is the contract of a call that does nothing.
pub fn the_first_order_comes_back()
    ensures undone { InvertedUndoes }
    ensures stands { FirstOrderStands }
    ensures geometry { FirstOrderIsGeometry }
    ensures same { FirstOrderIsSame }
{
    same_is_an_equivalence();
    renumbered_is_a_mesh();
}
