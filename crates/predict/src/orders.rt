//! The surface of an Edgebreaker stream, with the order of its entries.

use corner_table::{Classes, Order, SideTable};

/// A table of sides, the classes of its corners and an order over them: how the surface of a decoder is
/// glued, the corner of each of its entries, in the order in which values are coded, the entry of each
/// corner by its class, and the face across from each entry (Draco Bitstream Specification 2.2, section
/// "Attributes Decoder").
#[derive(Clone, Copy)]
pub struct Ordered<'t> {
    /// The surface, cut at the seams of the decoder where its values belong to corners.
    pub sides: &'t SideTable,
    /// The classes of its corners.
    pub classes: &'t Classes,
    /// The order of its entries.
    pub order: &'t Order,
}
