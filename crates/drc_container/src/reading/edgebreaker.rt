//! Decoding an Edgebreaker mesh behind its header.

ghost use Rattle.drc_base.specs.Profile.{profile_numbered, profile as limits};
ghost use Rattle.std.specs.Prelude.{◌≡◌, ◌*◌, ◌<◌, ◌≤◌, Err, IfOk, IfSome, IsTrue, length, map, All};
ghost use Rattle.drc_base.specs.declared.faults.Fault.{Fault as AnyFault};
ghost use Rattle.drc_base.specs.declared.faults.Refusal.TheVariants as refusal;
ghost use Rattle.drc_base.specs.declared.limits.TheConstants.{MAX_FACES as most_faces};
ghost use Rattle.drc_base.specs.Refusals.{Answers};
ghost use Rattle.drc_bits.specs.Reading.{Gives};
ghost use Rattle.mesh_model.specs.Assembled.{AreTables};
ghost use Rattle.mesh_model.specs.Groups.{group_tables, HasVertices};
ghost use Rattle.eb_section.specs.Connectivity.{connectivity_at, declared_at, meaning};
ghost use Rattle.drc_container.specs.reading.Meaning.{geometry_due, told_by, edgebreaker_info};
ghost use Rattle.drc_container.specs.reading.OnSurface.{at_end, assembled_in};
ghost use Rattle.drc_container.specs.reading.AsRead.{group_on, tables_on, built_classes};
ghost use Rattle.drc_container.specs.reading.Stream.{edgebreaker_at, surface_behind};
ghost use Rattle.drc_container.specs.reading.Unassembled.{Leaves, meaning_left};

use crate::reading::decoders::read_attributes_on;
use crate::reading::info::{
    AttrInfo, ConnectivityInfo, Decoded, StreamInfo, method_read, stream_info,
};
use crate::reading::surface_attributes::{AttributesRead, DecoderValues, groups_of};
use attr_heads::Head;
use corner_table::{Classes, Steps};
use drc_base::{Fault, Profile, Refusal, Sequence};
use drc_bits::Cursor;
use eb_rebuild::Built;
use eb_section::{EbRead, read_connectivity};
use mesh_model::{AttrGroup, CornerMesh, Geometry, assemble};
use std::alloc::Global;
use std::marker::Brand;
use std::sync::ledger::{Blank, Ledger};

/// An Edgebreaker mesh as it was read, with the attributes that it is assembled from.
#[derive(Drop)]
struct SurfaceRead {
    /// The surface, its faces in the order of decoding.
    sides: Built,
    /// What each attribute is.
    heads: Sequence<Head>,
    /// The values of each decoder's attributes.
    decoders: Sequence<DecoderValues>,
    /// What is known of the stream beside them.
    info: StreamInfo,
}

/// Reads an Edgebreaker mesh behind its header.
pub fn read_edgebreaker(
    alloc: Global,
    c: &mut Cursor<'_>,
    profile: Profile,
) -> Result<Decoded, Refusal>
    ensures mesh { Answers told_by (edgebreaker_at (profile_numbered profile.number) c.old) result }
    ensures early { (f : AnyFault) → declared_at limits c.old ≡ Err f → result ≡ Err (refusal.Fault f) }
    ensures linked { IfOk result (λ d. IfSome d.sides (λ b. IsTrue b.linked)) }
{
    let SurfaceRead {
        sides,
        heads,
        decoders,
        info,
    } = read_unassembled(alloc, c, profile)?;
    let faces = sides.table().face_count();
    let whole = classes_lent(&sides);
    let mesh = assemble_on(
        alloc,
        profile,
        info.end,
        faces,
        whole,
        heads,
        decoders.as_slice(),
    )?;
    Ok(Decoded {
        geometry: Geometry::Mesh(mesh),
        sides: Some(sides),
        info,
    })
}

/// Reads an Edgebreaker mesh behind its header, without its surface: the table of glued sides is freed before the mesh
/// is assembled.
pub fn read_edgebreaker_mesh(
    alloc: Global,
    c: &mut Cursor<'_>,
    profile: Profile,
) -> Result<Geometry, Refusal>
    ensures mesh { Answers (λ g. g) (geometry_due (edgebreaker_at (profile_numbered profile.number) c.old)) result }
    ensures early { (f : AnyFault) → declared_at limits c.old ≡ Err f → result ≡ Err (refusal.Fault f) }
{
    let SurfaceRead {
        sides,
        heads,
        decoders,
        info,
    } = read_unassembled(alloc, c, profile)?;
    let faces = sides.table().face_count();
    let whole = classes_alone(sides);
    let mesh = assemble_on(
        alloc,
        profile,
        info.end,
        faces,
        whole.as_slice(),
        heads,
        decoders.as_slice(),
    )?;
    Ok(Geometry::Mesh(mesh))
}

/// The classes of the corners of a finished surface.
pub fn classes_lent(sides: &Built) -> &[u32]
    ensures { result.now ≡ built_classes sides.now }
{
    // For the prover alone: the call states that the table is a surface.
    let _faces = sides.table().face_count();
    sides.classes().of_corner.as_slice()
}

/// The classes of the corners of a finished surface, which is freed.
fn classes_alone(sides: Built) -> Sequence<u32>
    ensures { result ≡ built_classes sides }
{
    let _faces = sides.table().face_count();
    let Classes {
        of_corner,
        count: _,
        ends: _,
    } = sides.into_classes();
    of_corner
}

/// Reads an Edgebreaker mesh behind its header, but doesn't assemble it.
#[tactic(auto, unfolding(crate::specs::reading::Stream::edgebreaker_at))]
fn read_unassembled(
    alloc: Global,
    c: &mut Cursor<'_>,
    profile: Profile,
) -> Result<SurfaceRead, Refusal>
    ensures mesh { Leaves (meaning_left profile.number) (edgebreaker_at (profile_numbered profile.number) c.old) result }
    ensures early { (f : AnyFault) → declared_at limits c.old ≡ Err f → result ≡ Err (refusal.Fault f) }
    ensures linked { IfOk result (λ r. IsTrue r.sides.linked) }
    ensures tables { IfOk result (λ r. AreTables r.heads (tables_on (built_classes r.sides) r.decoders) r.sides.table.faces) }
    ensures vertices { IfOk result (λ r. All (HasVertices (3 * r.sides.table.faces)) (map (group_on (built_classes r.sides)) r.decoders)) }
{
    let from = c.place();
    let surface = read_surface::<Brand>(alloc, c, profile, Blank::new(1))?;
    read_behind(alloc, c, profile, from, surface)
}

/// Reads connectivity, which is the same in each profile of these limits, under a count of table calls that nothing else takes part in.
fn read_surface<'a, L: Ledger>(
    alloc: Global,
    c: &mut Cursor<'a>,
    _profile: Profile,
    blank: Blank,
) -> Result<EbRead<'a>, Refusal>
    requires name { blank.name ≡ L.name }
    requires parts { blank.parts ≡ L.parts }
    requires some { 0 < L.parts }
    ensures section { Gives meaning (connectivity_at (profile_numbered _profile.number) c.old) c.new result }
    ensures early { (f : AnyFault) → declared_at limits c.old ≡ Err f → result ≡ Err (refusal.Fault f) }
    ensures linked { IfOk result (λ r. IsTrue r.sides.linked) }
    ensures faces { IfOk result (λ r. r.sides.table.faces ≤ most_faces) }
    ensures seams { IfOk result (λ r. length r.seams ≡ r.attr_data) }
{
    let mut steps = Steps::<L>::new(blank);
    read_connectivity(alloc, c, &mut steps)
}

/// Reads the attributes behind connectivity that begins at `from`.
#[tactic(auto, unfolding(crate::specs::reading::Stream::surface_behind))]
fn read_behind(
    alloc: Global,
    c: &mut Cursor<'_>,
    profile: Profile,
    from: u64,
    surface: EbRead<'_>,
) -> Result<SurfaceRead, Refusal>
    requires faces { surface.sides.table.faces ≤ most_faces }
    requires seams { length surface.seams ≡ surface.attr_data }
    ensures mesh { Leaves (meaning_left profile.number) (surface_behind (profile_numbered profile.number) from (meaning surface.entry) c.old) result }
    ensures sides { IfOk result (λ r. r.sides ≡ surface.entry.sides) }
    ensures tables { IfOk result (λ r. AreTables r.heads (tables_on (built_classes r.sides) r.decoders) r.sides.table.faces) }
    ensures vertices { IfOk result (λ r. All (HasVertices (3 * r.sides.table.faces)) (map (group_on (built_classes r.sides)) r.decoders)) }
{
    let to = c.place();
    let AttributesRead {
        heads,
        decoders,
        info,
    } = read_attributes_on(alloc, c, profile, &surface)?;
    let info = edgebreaker_info(c, from, to, &surface, info);
    Ok(SurfaceRead {
        sides: surface.sides,
        heads,
        decoders,
        info,
    })
}

/// The mesh of these decoders' attributes on a surface of so many faces, whose corners have these classes; its faults are
/// at the end of the stream, which stands at `end`.
fn assemble_on(
    alloc: Global,
    profile: Profile,
    end: u64,
    faces: u32,
    whole: &[u32],
    heads: Sequence<Head>,
    decoders: &[DecoderValues],
) -> Result<CornerMesh, Refusal>
    requires tables { AreTables heads (tables_on whole.now decoders.now) faces }
    requires vertices { All (HasVertices (3 * faces)) (map (group_on whole.now) decoders.now) }
    ensures { Answers (λ m. m) (at_end end (assembled_in (profile_numbered profile.number) heads (tables_on whole.now decoders.now) faces)) result }
{
    let groups = groups_of(alloc, whole, decoders)?;
    assemble_at(
        alloc,
        profile,
        end,
        heads.into_vec(),
        groups.as_slice(),
        faces,
    )
}

/// The mesh of groups of attributes, which each profile of these limits accepts; its faults are at the end of the stream, which stands
/// at `end`.
fn assemble_at(
    alloc: Global,
    _profile: Profile,
    end: u64,
    heads: Vec<Head>,
    groups: &[AttrGroup<'_>],
    faces: u32,
) -> Result<CornerMesh, Refusal>
    requires tables { AreTables heads.items (group_tables groups.now) faces }
    requires vertices { All (HasVertices (3 * faces)) groups.now }
    ensures { Answers (λ m. m) (at_end end (assembled_in (profile_numbered _profile.number) heads.items (group_tables groups.now) faces)) result }
{
    match assemble(alloc, heads, groups, faces) {
        Ok(mesh) => Ok(mesh),
        Err(Refusal::Fault(fault)) => Err(Refusal::Fault(Fault::new(fault.kind, end))),
        Err(Refusal::Memory) => Err(Refusal::Memory),
    }
}

/// What is known of an Edgebreaker stream with these attributes, whose connectivity stands between the
/// places `from` and `to`, and which ends at the cursor.
fn edgebreaker_info(
    end: &Cursor<'_>,
    from: u64,
    to: u64,
    surface: &EbRead<'_>,
    attrs: Sequence<AttrInfo>,
) -> StreamInfo
    ensures { result ≡ edgebreaker_info from to (meaning surface.now) attrs end.now }
{
    let connectivity = ConnectivityInfo {
        method: method_read(surface.valence),
        symbols: surface.symbols,
        splits: surface.splits,
        events: surface.events,
    };
    stream_info(end, from, to, connectivity, attrs)
}
