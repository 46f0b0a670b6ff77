//! Attributes in groups that share their vertices.

use drc_base::Sequence;
use std::marker::Model;

/// Attributes whose values stand at the same vertices; all lists are lent. Contracts see it as its lists.
#[derive(Debug, Drop)]
pub struct AttrGroup<'t> {
    /// The vertex of each corner, by the corner's number 3 * face + k. Vertices may have any numbers that have an
    /// entry; a mesh is assembled fastest where they go 0, 1, 2, .. as they come first.
    pub of_corner: &'t [u32],
    /// The entry of each vertex.
    pub entry_of: &'t [u32],
    /// The values of each attribute, entry after entry: entry e of an attribute of `comps` components has the `comps`
    /// values from value e * comps on.
    pub values: &'t [Sequence<i32>],
}

impl<'t> Model for AttrGroup<'t> {
    ghost use Rattle.mesh_model.specs.Groups.{GroupParts};

    ghost Value = { GroupParts };

    ghost view = { λ g. record { of_corner = g.of_corner.now; entry_of = g.entry_of.now; values = g.values.now } };
}
