//! Positions that were read, which other attributes of a stream are predicted from.

ghost use Rattle.std.specs.Prelude.{◌≡◌, ◌≤◌, ℤ, List, None, Some, length};
ghost use Rattle.std.specs.Option.{option_map};
ghost use Rattle.corner_table.specs.Ordered.{entries_by};
ghost use Rattle.predict.specs.Surfaces.{surface_of};
ghost use Rattle.attr_section.specs.Positions.{has_coordinates, as_positions, with_attribute, entries_on, with_attributes, usable};
ghost use Rattle.attr_section.specs.TablePositions.{positions_in, read_in};

use crate::values::Values;
use attr_heads::{Head, POSITION};
use predict::Ordered;

/// Positions that were read: three integers for each entry, and the entry of each corner of their surface, by its class.
#[derive(Clone, Copy)]
pub struct Positions<'t> {
    /// The integers, three for each entry.
    pub values: &'t [i32],
    /// The class of each corner, three for each face.
    pub classes: &'t [u32],
    /// The entry of each class.
    pub entry_of_class: &'t [u32],
}

/// What has been read of the positions of a stream, which are its first attribute of usage 0.
#[derive(Clone, Copy)]
pub enum ReadPositions<'t> {
    /// No attribute of usage 0 yet.
    NotYet,
    /// One that no other attribute can be predicted from.
    Unusable,
    /// One that others can be predicted from.
    Usable(Positions<'t>),
}

/// Whether the integers of a head are the three coordinates of a position.
fn has_coordinates(head: &Head) -> bool
    ensures { result ≡ has_coordinates head.now }
{
    head.comps == 3 && head.octa.is_none()
}

/// What has been read with one more attribute on a surface: the first one of usage 0 stays. Others can be predicted from it where it has
/// three coordinates.
pub fn with_attribute<'t>(
    found: ReadPositions<'t>,
    head: &Head,
    positions: Positions<'t>,
) -> ReadPositions<'t>
    ensures { read_in result ≡ with_attribute (read_in found.entry) head.now positions.entry.values.now (Some (entries_by positions.entry.classes.now positions.entry.entry_of_class.now)) }
{
    match found {
        ReadPositions::NotYet => {
            if head.usage != POSITION {
                ReadPositions::NotYet
            } else if has_coordinates(head) {
                ReadPositions::Usable(positions)
            } else {
                ReadPositions::Unusable
            }
        }
        ReadPositions::Unusable => ReadPositions::Unusable,
        ReadPositions::Usable(first) => ReadPositions::Usable(first),
    }
}

/// What has been read with one more attribute of a sequential stream, from which no other can be predicted.
fn with_unplaced<'t>(found: ReadPositions<'t>, head: &Head) -> ReadPositions<'t>
    ensures { (values : List ℤ) → read_in result ≡ with_attribute (read_in found.entry) head.now values None }
{
    match found {
        ReadPositions::NotYet => {
            if head.usage != POSITION {
                ReadPositions::NotYet
            } else {
                ReadPositions::Unusable
            }
        }
        ReadPositions::Unusable => ReadPositions::Unusable,
        ReadPositions::Usable(first) => ReadPositions::Usable(first),
    }
}

/// What has been read with one more attribute, on an ordered surface where there is one.
pub(crate) fn with_one<'t>(
    on: Option<&'t Ordered<'t>>,
    found: ReadPositions<'t>,
    head: &Head,
    values: &'t [i32],
) -> ReadPositions<'t>
    ensures { read_in result ≡ with_attribute (read_in found.entry) head.now values.now (entries_on (surface_of (option_map (λ t. t.now) on.entry))) }
{
    match on {
        None => with_unplaced(found, head),
        Some(on) => {
            let positions = Positions {
                values,
                classes: on.classes.of_corner.as_slice(),
                entry_of_class: on.order.entry_of_class.as_slice(),
            };
            with_attribute(found, head, positions)
        }
    }
}

/// What has been read of the positions with the first attributes of a decoder: each has its head, and its values stand on the decoder's
/// ordered surface, where there is one.
pub(crate) fn with_attributes<'t>(
    on: Option<&'t Ordered<'t>>,
    found: ReadPositions<'t>,
    heads: &[Head],
    read: &'t [Values],
) -> ReadPositions<'t>
    requires { length read.now ≤ length heads.now }
    ensures { read_in result ≡ with_attributes (surface_of (option_map (λ t. t.now) on.entry)) (read_in found.entry) heads.now read.now }
{
    let mut positions = found;
    for k in 0..read.len() {
        positions = with_one(on, positions, &heads[k], read[k].values.as_slice());
    }
    positions
}

/// The positions that others can be predicted from.
pub(crate) fn usable<'a, 't>(found: &'a ReadPositions<'t>) -> Option<&'a Positions<'t>>
    ensures { option_map (λ p. positions_in p.now) result ≡ usable (read_in found.now) }
{
    match found {
        ReadPositions::NotYet => None,
        ReadPositions::Unusable => None,
        ReadPositions::Usable(positions) => Some(positions),
    }
}
