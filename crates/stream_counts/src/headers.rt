//! The header of a stream, by its geometry type and its method.

ghost use Rattle.std.specs.Prelude.{◌≡◌, Err};
ghost use Rattle.drc_bits.specs.Reading.{Reads};
ghost use Rattle.drc_container.specs.Header.{magic, magic_at, header_at, form_said, form_of, minor_of, greatest_method};
ghost use Rattle.stream_counts.specs.Forms.{Says};

use drc_base::{Fault, Kind};
use drc_bits::Cursor;

/// The first five bytes of every stream.
const MAGIC: &[u8; 5] = b"DRACO";

/// The major version of every stream.
const MAJOR: u8 = 2;

/// The geometry type of clouds.
const CLOUD: u8 = 0;

/// The geometry type of meshes.
const MESH: u8 = 1;

/// The method of clouds as kd-trees.
const KD_TREE: u8 = 1;

/// The least flags with that of metadata.
const METADATA: u16 = 0x8000;

/// The two bytes of a header that say the form of its stream.
#[derive(Clone, Copy, Debug)]
pub struct Form {
    /// The geometry type: 0 a cloud, 1 a mesh.
    pub geometry: u8,
    /// The method: 0 sequential, 1 Edgebreaker.
    pub method: u8,
}

/// Reads a header, or its first fault.
#[tactic(auto, unfolding(drc_container::specs::Header::header_at))]
pub fn read_header(c: &mut Cursor<'_>) -> Result<Form, Fault>
    ensures { Reads (λ f. form_of f.geometry f.method) (header_at c.old) c.new result }
{
    read_magic(c)?;
    let major = c.get_u8()?;
    let minor = c.get_u8()?;
    let geometry = c.get_u8()?;
    let method = c.get_u8()?;
    let flags = c.get_u16()?;
    form_said(major, minor, geometry, method, flags)
}

/// Reads the first five bytes.
fn read_magic(c: &mut Cursor<'_>) -> Result<(), Fault>
    ensures { Reads (λ _. magic) (magic_at c.old) c.new result }
{
    let fault = c.fault(Kind::Magic);
    if c.slice(5)? != MAGIC.as_slice() {
        return Err(fault);
    }
    Ok(())
}

/// The form that these fields of a header say.
#[tactic(auto, unfolding(drc_container::specs::Header::form_said))]
fn form_said(major: u8, minor: u8, geometry: u8, method: u8, flags: u16) -> Result<Form, Fault>
    ensures { Says (form_said major minor geometry method flags) result }
{
    if geometry > MESH {
        return refused(Kind::GeometryType, 7);
    }
    let is_cloud = geometry == CLOUD;
    if major != MAJOR || minor != minor_of(geometry) {
        return refused(Kind::Version, 5);
    }
    if is_cloud && method == KD_TREE {
        return refused(Kind::KdCloud, 8);
    }
    if method > greatest_method(geometry) {
        return refused(Kind::Method, 8);
    }
    if flags >= METADATA {
        return refused(Kind::Metadata, 9);
    }
    Ok(Form { geometry, method })
}

/// A refusal of this kind at this place.
fn refused(kind: Kind, at: u64) -> Result<Form, Fault>
    ensures { result ≡ Err (record { kind = kind; at = at }) }
{
    Err(Fault::new(kind, at))
}

/// The minor version of a geometry type.
fn minor_of(geometry: u8) -> u8
    ensures { result ≡ minor_of geometry }
{
    if geometry == CLOUD { 3 } else { 2 }
}

/// The greatest method of a geometry type.
fn greatest_method(geometry: u8) -> u8
    ensures { result ≡ greatest_method geometry }
{
    if geometry == CLOUD { 0 } else { 1 }
}
