//! What a decoder of attributes is.

use attr_heads::Head;
use drc_base::Sequence;

/// A decoder of attributes: how it is linked to the connectivity, and the heads of its attributes
/// (Draco Bitstream Specification 2.2, section "Attributes Decoder").
#[derive(Debug, Drop)]
pub struct DecoderHead {
    /// The connectivity that the decoder follows: 255 that of the positions, else the number of an
    /// attribute data. None exactly in a sequential stream.
    pub data_id: Option<u8>,
    /// Whether values belong to corners, and not to vertices.
    pub corner: bool,
    /// Whether entries are ordered by prediction degree, and not depth first.
    pub degree: bool,
    /// The heads of its attributes.
    pub heads: Sequence<Head>,
}
