//! Lists that go by the numbers of corners, classes and entries.

use drc_base::Sequence;

/// The classes of corners that are one vertex.
#[derive(Debug, Drop)]
pub struct Classes {
    /// The class of each corner, by the corner's number.
    pub of_corner: Sequence<u32>,
    /// How many classes there are.
    pub count: u32,
    /// Of each class, whether a free side meets it.
    pub ends: Sequence<bool>,
}

/// The entries of a face across a side: that of its corner opposite to the side, and those of the
/// corners after and before it.
#[derive(Clone, Copy, Debug, Default)]
pub struct FaceAcross {
    /// The entry of the corner opposite to the side.
    pub across: u32,
    /// The entry of the corner after it in its face.
    pub after: u32,
    /// The entry of the corner before it in its face.
    pub before: u32,
}

/// An order in which values are coded.
#[derive(Debug, Drop)]
pub struct Order {
    /// For each entry a corner at which it stands, by its number 3f + k.
    pub corner_of_entry: Sequence<u32>,
    /// The entry of each class of corners.
    pub entry_of_class: Sequence<u32>,
    /// For each entry the face across the side of its corner, where there is one whose entries all
    /// come before; else one whose `across` is `FREE`.
    pub faces_across: Sequence<FaceAcross>,
}
