//! The header of a stream.

ghost use Rattle.drc_base.specs.Profile.{profile_numbered};
ghost use Rattle.std.specs.Prelude.{◌≡◌, ◌++◌, Err, OnOk};
ghost use Rattle.drc_bits.specs.Reading.{Reads};
ghost use Rattle.drc_container.specs.Header.{magic, magic_at, header_at, form_said, minor_of, greatest_method, form_of, cloud_points_at};
ghost use Rattle.drc_container.specs.writing.Written.{header_of_type};

use drc_base::{Fault, Kind, MAX_POINTS, Memory, Profile};
use drc_bits::Cursor;

/// The forms of streams that a header distinguishes.
#[derive(Clone, Copy, Debug, PartialEq, Eq)]
pub enum Form {
    /// A mesh whose faces are given as indices.
    SequentialMesh,
    /// A mesh in Edgebreaker's order.
    EdgebreakerMesh,
    /// A cloud of points.
    Cloud,
}

/// The first five bytes of every stream.
const MAGIC: &[u8; 5] = b"DRACO";

/// The major version of every stream.
const MAJOR: u8 = 2;

/// The minor version of clouds.
const CLOUD_MINOR: u8 = 3;

/// The minor version of meshes.
const MESH_MINOR: u8 = 2;

/// The geometry type of clouds.
pub const CLOUD: u8 = 0;

/// The geometry type of meshes.
pub const MESH: u8 = 1;

/// The method of sequential streams.
pub const SEQUENTIAL: u8 = 0;

/// The method of meshes by Edgebreaker.
pub const EDGEBREAKER: u8 = 1;

/// The method of clouds as kd-trees.
const KD_TREE: u8 = 1;

/// The flag of metadata.
const METADATA: u16 = 0x8000;

/// Reads a header: `Short` or `Magic` at the item, and where all eleven bytes are there, in this
/// order, `GeometryType`, `Version`, `KdCloud`, `Method` and `Metadata` at their places.
#[tactic(auto, unfolding(crate::specs::Header::header_at))]
pub fn read_header(c: &mut Cursor<'_>) -> Result<Form, Fault>
    ensures { Reads (λ f. f) (header_at c.old) c.new result }
{
    read_magic(c)?;
    let major = c.get_u8()?;
    let minor = c.get_u8()?;
    let geometry = c.get_u8()?;
    let method = c.get_u8()?;
    let flags = c.get_u16()?;
    form_said(major, minor, geometry, method, flags)
}

/// Reads the first five bytes.
fn read_magic(c: &mut Cursor<'_>) -> Result<(), Fault>
    ensures { Reads (λ _. magic) (magic_at c.old) c.new result }
{
    let fault = c.fault(Kind::Magic);
    if c.slice(5)? != MAGIC.as_slice() {
        return Err(fault);
    }
    Ok(())
}

/// The form that these fields of a header say.
#[tactic(auto, unfolding(crate::specs::Header::form_said))]
fn form_said(major: u8, minor: u8, geometry: u8, method: u8, flags: u16) -> Result<Form, Fault>
    ensures { result ≡ form_said major minor geometry method flags }
{
    if geometry > MESH {
        return refused(Kind::GeometryType, 7);
    }
    let is_cloud = geometry == CLOUD;
    if major != MAJOR || minor != minor_of(geometry) {
        return refused(Kind::Version, 5);
    }
    if is_cloud && method == KD_TREE {
        return refused(Kind::KdCloud, 8);
    }
    if method > greatest_method(geometry) {
        return refused(Kind::Method, 8);
    }
    if flags >= METADATA {
        return refused(Kind::Metadata, 9);
    }
    Ok(form_of(geometry, method))
}

/// A refusal of this kind at this place.
fn refused(kind: Kind, at: u64) -> Result<Form, Fault>
    ensures { result ≡ Err (record { kind = kind; at = at }) }
{
    Err(Fault::new(kind, at))
}

/// The minor version of a geometry type.
fn minor_of(geometry: u8) -> u8
    ensures { result ≡ minor_of geometry }
{
    if geometry == CLOUD {
        CLOUD_MINOR
    } else {
        MESH_MINOR
    }
}

/// The greatest method of a geometry type.
fn greatest_method(geometry: u8) -> u8
    ensures { result ≡ greatest_method geometry }
{
    if geometry == CLOUD {
        SEQUENTIAL
    } else {
        EDGEBREAKER
    }
}

/// The form of a geometry type and a method.
fn form_of(geometry: u8, method: u8) -> Form
    ensures { result ≡ form_of geometry method }
{
    if geometry == CLOUD {
        Form::Cloud
    } else if method == SEQUENTIAL {
        Form::SequentialMesh
    } else {
        Form::EdgebreakerMesh
    }
}

/// Appends the header of a geometry type and a method, without flags.
pub fn put_header(out: &mut Vec<u8>, geometry: u8, method: u8) -> Result<(), Memory>
    ensures { OnOk result (out.new.items ≡ out.old.items ++ header_of_type geometry method) }
{
    out.extend_from_slice(MAGIC)?;
    out.extend_from_slice(&[MAJOR, minor_of(geometry), geometry, method, 0, 0])?;
    Ok(())
}

/// Reads the number of points of a cloud, of which each profile of these limits takes as many.
pub fn read_cloud_points(c: &mut Cursor<'_>, _profile: Profile) -> Result<u32, Fault>
    ensures { Reads (λ n. n) (cloud_points_at (profile_numbered _profile.number) c.old) c.new result }
{
    let fault = c.fault(Kind::PointLimit);
    let points = c.get_u32()?;
    if points > MAX_POINTS {
        return Err(fault);
    }
    Ok(points)
}
