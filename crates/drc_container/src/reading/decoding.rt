//! Decoding a whole stream.

ghost use Rattle.drc_base.specs.Profile.{profile_numbered, profile as limits};
ghost use Rattle.std.specs.Prelude.{◌≡◌, None, Err, IfOk, IfSome, IsTrue};
ghost use Rattle.drc_base.specs.declared.faults.Fault.{Fault as AnyFault};
ghost use Rattle.drc_base.specs.declared.faults.Refusal.TheVariants as refusal;
ghost use Rattle.drc_base.specs.Refusals.{Answers};
ghost use Rattle.drc_bits.specs.Reading.{Gives};
ghost use Rattle.drc_container.specs.reading.Meaning.{geometry_read, told_by};
ghost use Rattle.drc_container.specs.reading.Stream.{stream_in, meaning_in, points_behind, mesh_at, cloud_at, cloud_declared_at, declared_of};
ghost use Rattle.attr_heads.specs.ProfileHeads.{has_heads};
ghost use Rattle.mesh_model.specs.Contents.{heads_in};
ghost use Rattle.mesh_model.specs.Parts.{AreRows, range_fault};
ghost use Rattle.attr_section.specs.Openings.{heads_opening_at};
ghost use Rattle.seq_section.specs.Indices.{indices_opening_at, indices_at};

use crate::headers::{Form, read_cloud_points, read_header};
use crate::reading::attributes::{Attributes, read_attributes};
use crate::reading::edgebreaker::{read_edgebreaker, read_edgebreaker_mesh};
use crate::reading::info::{Decoded, StreamInfo, sequential_info};
use crate::reading::points::points_of;
use attr_heads::Head;
use drc_base::{Profile, Refusal, Sequence};
use drc_bits::Cursor;
use mesh_model::{Cloud, CornerMesh, Geometry};
use seq_section::{SeqRead, read_indices};
use std::alloc::Global;

/// The geometry that a stream means in a profile, or its first fault, whose `at` is a place but for the kinds that
/// say otherwise. Bytes after the stream's end are ignored. Faults of the header, of the two numbers
/// and the method of sequential connectivity, of the numbers that Edgebreaker connectivity declares, and of
/// a cloud's numbers of points, of decoders and of the first one's attributes, come before out of memory.
/// The profile has the heads of what it reads: before profile 3 no attribute is octahedral.
#[tactic(auto, unfolding(crate::specs::reading::Stream::stream_in))]
pub fn decode(alloc: Global, bytes: &[u8], profile: Profile) -> Result<Geometry, Refusal>
    ensures meaning { Answers (λ g. g) (meaning_in (profile_numbered profile.number) bytes.now) result }
    ensures early { (f : AnyFault) → declared_of bytes.now ≡ Err f → result ≡ Err (refusal.Fault f) }
    ensures heads { IfOk result (λ g. IsTrue (has_heads profile.number (heads_in g))) }
{
    let mut c = Cursor::new(bytes);
    let form = read_header(&mut c)?;
    match form {
        Form::SequentialMesh => geometry_alone(read_mesh(alloc, &mut c, profile)),
        Form::Cloud => geometry_alone(read_cloud(alloc, &mut c, profile)),
        Form::EdgebreakerMesh => read_edgebreaker_mesh(alloc, &mut c, profile),
    }
}

/// The geometry alone of what was decoded.
fn geometry_alone(read: Result<Decoded, Refusal>) -> Result<Geometry, Refusal>
    ensures { result ≡ geometry_read read }
{
    let Decoded {
        geometry,
        sides: _,
        info: _,
    } = read?;
    Ok(geometry)
}

/// The geometry that a stream means in a profile, the surface of an Edgebreaker mesh, which was rebuilt by links, and
/// what is known of the stream; or its first fault, as `decode`. The profile has the heads of what it reads.
#[tactic(auto, unfolding(crate::specs::reading::Stream::stream_in))]
pub fn decode_whole(alloc: Global, bytes: &[u8], profile: Profile) -> Result<Decoded, Refusal>
    ensures stream { Answers told_by (stream_in (profile_numbered profile.number) bytes.now) result }
    ensures early { (f : AnyFault) → declared_of bytes.now ≡ Err f → result ≡ Err (refusal.Fault f) }
    ensures linked { IfOk result (λ d. IfSome d.sides (λ b. IsTrue b.linked)) }
    ensures heads { IfOk result (λ d. IsTrue (has_heads profile.number (heads_in d.geometry))) }
{
    let mut c = Cursor::new(bytes);
    match read_header(&mut c)? {
        Form::SequentialMesh => read_mesh(alloc, &mut c, profile),
        Form::Cloud => read_cloud(alloc, &mut c, profile),
        Form::EdgebreakerMesh => read_edgebreaker(alloc, &mut c, profile),
    }
}

/// What is read of a sequential stream behind its connectivity.
#[derive(Drop)]
struct PointsRead {
    /// What each attribute is.
    heads: Sequence<Head>,
    /// The integers of all points, point after point.
    cells: Sequence<i32>,
    /// What is known of the stream beside them.
    info: StreamInfo,
}

/// Reads so many points of a sequential stream behind its connectivity, which begins at `from`.
#[tactic(auto, unfolding(crate::specs::reading::Stream::points_behind))]
fn read_points(
    alloc: Global,
    c: &mut Cursor<'_>,
    profile: Profile,
    from: u64,
    points: u32,
) -> Result<PointsRead, Refusal>
    ensures points { Answers (λ r. r) (points_behind (profile_numbered profile.number) from points c.old) result }
    ensures early { (f : AnyFault) → heads_opening_at None c.old ≡ Err f → result ≡ Err (refusal.Fault f) }
    ensures rows { IfOk result (λ r. AreRows r.heads r.cells) }
    ensures typed { IfOk result (λ r. range_fault r.heads r.cells ≡ None) }
{
    let to = c.place();
    let attributes = read_attributes(alloc, c, profile, points)?;
    let info = sequential_info(alloc, c, from, to, points, &attributes)?;
    let Attributes { heads, values } = attributes;
    let cells = points_of(alloc, points, heads.as_slice(), values.into_vec())?;
    Ok(PointsRead {
        heads,
        cells: Sequence::from_vec(cells),
        info,
    })
}

/// Reads the indices of a sequential mesh, which are the same in each profile of these limits.
fn read_faces(alloc: Global, c: &mut Cursor<'_>, _profile: Profile) -> Result<SeqRead, Refusal>
    ensures indices { Gives (λ r. r) (indices_at (profile_numbered _profile.number) c.old) c.new result }
    ensures early { (f : AnyFault) → indices_opening_at limits c.old ≡ Err f → result ≡ Err (refusal.Fault f) }
{
    read_indices(alloc, c)
}

/// Reads a sequential mesh behind its header.
#[tactic(auto, unfolding(crate::specs::reading::Stream::mesh_at, crate::specs::reading::Stream::mesh_behind))]
fn read_mesh(alloc: Global, c: &mut Cursor<'_>, profile: Profile) -> Result<Decoded, Refusal>
    ensures mesh { Answers told_by (mesh_at (profile_numbered profile.number) c.old) result }
    ensures sides { IfOk result (λ d. d.sides ≡ None) }
    ensures early { (f : AnyFault) → indices_opening_at limits c.old ≡ Err f → result ≡ Err (refusal.Fault f) }
{
    let from = c.place();
    let indices = read_faces(alloc, c, profile)?;
    let PointsRead { heads, cells, info } = read_points(alloc, c, profile, from, indices.points)?;
    let faces = indices.faces.into_vec();
    let mesh = CornerMesh::of_typed(heads.into_vec(), cells.into_vec(), faces)?;
    Ok(Decoded {
        geometry: Geometry::Mesh(mesh),
        sides: None,
        info,
    })
}

/// Reads a cloud behind its header.
#[tactic(auto, unfolding(crate::specs::reading::Stream::cloud_at, crate::specs::reading::Stream::cloud_behind, crate::specs::reading::Stream::cloud_declared_at))]
fn read_cloud(alloc: Global, c: &mut Cursor<'_>, profile: Profile) -> Result<Decoded, Refusal>
    ensures cloud { Answers told_by (cloud_at (profile_numbered profile.number) c.old) result }
    ensures sides { IfOk result (λ d. d.sides ≡ None) }
    ensures early { (f : AnyFault) → cloud_declared_at limits c.old ≡ Err f → result ≡ Err (refusal.Fault f) }
{
    let from = c.place();
    let points = read_cloud_points(c, profile)?;
    let PointsRead { heads, cells, info } = read_points(alloc, c, profile, from, points)?;
    let cloud = Cloud::of_typed(heads.into_vec(), cells.into_vec())?;
    Ok(Decoded {
        geometry: Geometry::Cloud(cloud),
        sides: None,
        info,
    })
}
