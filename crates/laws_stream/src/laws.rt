//! What holds of the definitions themselves.

ghost use Rattle.std.specs.Prelude.{◌≡◌, None, All};
ghost use Rattle.drc_container.specs.choice.Refused.{refused};
ghost use Rattle.drc_container.specs.writing.Chosen.{written};
ghost use Rattle.drc_container.specs.writing.Encoded.{Means};
ghost use Rattle.drc_container.specs.writing.Layout.{IsLaidOut};
ghost use Rattle.laws_stream.specs.Laws.{IsByte, WrittenMeans, WrittenIsLaidOut, WrittenIsBytes};

use crate::heads::geometry_fits;
use drc_container::Choice;
use mesh_model::Geometry;

/// What is written of a geometry that isn't refused means the geometry, whatever the geometry and the choice. The stream has a meaning in
/// the first profile that has all that is written, which is profile 3 where an attribute is octahedral or predictions are chosen by the
/// shape of the surface, and else profile 2. Its geometry is the one that was written, by the rows beside the stream; the points or the
/// surface are kept, the stream ends with its last byte, and whatever bytes follow it means this geometry. And it is coded as was chosen,
/// attribute by attribute. So there is no geometry whose stream would be wrong, for which an encoder could be right only by answering that
/// it is out of memory. This is the contract of a call that does nothing.
pub fn what_is_written_means_the_geometry()
    ensures means { WrittenMeans }
    ensures layout { WrittenIsLaidOut }
{}

/// Each number that is written of a geometry is one of a byte, whatever the geometry and the choice. So there
/// is no geometry that can't be written in bytes. This is the contract of a call that does nothing.
pub fn what_is_written_is_bytes()
    ensures { WrittenIsBytes }
{}

/// The same of a geometry in memory, which has all that these laws ask of a geometry: what is written of it is
/// bytes, and where it isn't refused, they mean it, and are coded as was chosen. This is the contract of a call that reads the heads, and
/// does nothing else.
pub fn each_geometry_is_written(g: &Geometry, choice: &Choice)
    ensures means { refused g.now choice.now ≡ None → Means g.now choice.now (written g.now choice.now).0 (written g.now choice.now).1 }
    ensures layout { refused g.now choice.now ≡ None → IsLaidOut g.now choice.now (written g.now choice.now).0 }
    ensures bytes { All IsByte (written g.now choice.now).0 }
{
    geometry_fits(g);
}
