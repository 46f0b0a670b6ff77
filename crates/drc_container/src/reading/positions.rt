//! The positions among the attributes on a surface that were read, which later ones are predicted from.

ghost use Rattle.std.specs.Prelude.{◌≡◌, ◌≤◌, ◌<◌, length, drop};
ghost use Rattle.attr_section.specs.Positions.{PositionsRead};
ghost use Rattle.attr_section.specs.TablePositions.{read_in};
ghost use Rattle.mesh_model.specs.Groups.{tables_of};
ghost use Rattle.drc_container.specs.reading.AsRead.{group_on, tables_on};
ghost use Rattle.drc_container.specs.reading.OnSurface.{positions_from};

use crate::reading::surface_attributes::DecoderValues;
use attr_heads::Head;
use attr_section::{Positions, ReadPositions, with_attribute};

/// The classes of the corners at which a decoder's attributes stand; `whole` has those of the stream's surface.
fn classes_of<'t>(whole: &'t [u32], decoder: &'t DecoderValues) -> &'t [u32]
    ensures { result.now ≡ (group_on whole.now decoder.now).of_corner }
{
    match &decoder.cut {
        Some(cut) => cut.as_slice(),
        None => whole,
    }
}

/// What has been read of the positions behind the attributes of a decoder; `heads` begin with theirs.
fn positions_behind<'t>(
    whole: &'t [u32],
    found: ReadPositions<'t>,
    heads: &[Head],
    decoder: &'t DecoderValues,
) -> ReadPositions<'t>
    requires { length decoder.now.values.items ≤ length heads.now }
    ensures { read_in result ≡ positions_from (read_in found.entry) heads.now (tables_of (group_on whole.now decoder.now)) }
{
    let classes = classes_of(whole, decoder);
    let mut positions = found;
    for k in 0..decoder.values.len() {
        let these = Positions {
            values: decoder.values[k].as_slice(),
            classes,
            entry_of_class: decoder.entry_of_class.as_slice(),
        };
        positions = with_attribute(positions, &heads[k], these);
    }
    positions
}

/// What has been read of the positions by all attributes of these decoders: the first attribute of usage 0. `whole` has the classes of the
/// stream's surface.
pub fn positions_among<'t>(
    whole: &'t [u32],
    heads: &[Head],
    decoders: &'t [DecoderValues],
) -> ReadPositions<'t>
    requires { length (tables_on whole.now decoders.now) ≡ length heads.now }
    ensures { read_in result ≡ positions_from PositionsRead.NotYet heads.now (tables_on whole.now decoders.now) }
{
    let mut positions = ReadPositions::NotYet;
    let mut k: usize = 0;
    for decoder in decoders {
        positions = positions_behind(whole, positions, &heads[k..], decoder);
        k += decoder.values.len();
    }
    positions
}
