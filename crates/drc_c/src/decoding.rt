//! Decoding: bytes to arrays.

ghost use Rattle.std.specs.Prelude.{◌≡◌, ◌↔◌, ◌⊎◌, [], ◌∷◌, Contains, true, false, Ok, Err, length};
ghost use Rattle.drc_base.specs.declared.faults.Fault.{Fault as AnyFault};
ghost use Rattle.drc_base.specs.Profile.{profile_numbered};
ghost use Rattle.mesh_model.specs.declared.geometries.Geometry.{Geometry as AnyGeometry};
ghost use Rattle.mesh_model.specs.Contents.{faces_in};
ghost use Rattle.drc_container.specs.reading.Stream.{meaning_in, declared_of};
ghost use Rattle.drc_c.specs.Arrays.{filled};
ghost use Rattle.drc_c.specs.Faults.{IsTold};
ghost use Rattle.drc_c.specs.Profiles.{is_profile};
ghost use Rattle.drc_c.specs.Shapes.{shape_of, integers_of, LacksRoom};

use crate::arrays::fill;
use crate::faults::{DrcFault, refuse};
use crate::handing::{Arrays, arrays_of, handed_corners, handed_values};
use crate::profiles::profile_asked;
use crate::shapes::{DrcShape, faces_in, integers_of, shape_of};
use crate::statuses::{BAD_ARGUMENT, DONE, NO_MEMORY, NO_ROOM, REFUSED};
use drc_container::decode;
use mesh_model::Geometry;
use std::alloc::Global;

/// A decoded geometry, whose arrays C frees.
#[repr(C)]
#[derive(Drop)]
pub struct DrcGeometry {
    /// What it is.
    pub shape: DrcShape,
    /// The numbers of the three points of each face; null where there is no face.
    pub corners: *mut [u32; 3],
    /// The integers of all points, point after point; null where there is none.
    pub values: *mut i32,
}

// As the header has it.
const _: () = prove!(size_of::<DrcGeometry>() == 808);

/// Writes the faces and integers of a geometry to the front of arrays, where both have room.
fn place(g: &Geometry, corners: &mut [[u32; 3]], values: &mut [i32]) -> bool
    ensures placed { result ≡ true → (corners.new ≡ filled (faces_in g.now) corners.old) × (values.new ≡ filled (integers_of g.now) values.old) }
    ensures lacking { result ≡ false → LacksRoom g.now (length corners.old) (length values.old) × (corners.new ≡ corners.old) × (values.new ≡ values.old) }
{
    let faces = faces_in(g);
    let integers = integers_of(g);
    if faces.len() > corners.len() || integers.len() > values.len() {
        return false;
    }
    fill(corners, faces);
    fill(values, integers);
    true
}

/// Writes a geometry's shape, and its faces and integers where both arrays have room.
fn deliver(g: &Geometry, corners: &mut [[u32; 3]], values: &mut [i32], shape: &mut DrcShape) -> u32
    ensures statuses { (result ≡ DONE) ⊎ (result ≡ NO_ROOM) }
    ensures shape { shape.new ≡ shape_of g.now }
    ensures done { result ≡ DONE → (corners.new ≡ filled (faces_in g.now) corners.old) × (values.new ≡ filled (integers_of g.now) values.old) }
    ensures no_room { result ≡ NO_ROOM → LacksRoom g.now (length corners.old) (length values.old) × (corners.new ≡ corners.old) × (values.new ≡ values.old) }
{
    *shape = shape_of(g);
    if place(g, corners, values) {
        return DONE;
    }
    NO_ROOM
}

/// Decodes a stream, read in a profile, into arrays of the caller: the numbers of the three points of each face, and the
/// integers of all points, point after point. Bytes after the stream's end are ignored.
///
/// `DONE`: the arrays begin with the faces and the integers, and the shape is that of the geometry. `BAD_ARGUMENT`: just
/// where `profile` is neither 2 nor 3. `NO_ROOM`: one of the arrays is too short for a stream that means a geometry; the shape
/// says what is needed, and the arrays are as before. `REFUSED`: the stream has this first fault, and all else is as before.
/// `NO_MEMORY`: nothing is written. Faults of the header and of the declared numbers come before out of memory.
#[unsafe(no_mangle)]
pub extern "C" fn drc_decode_into(
    alloc: Global,
    bytes: &[u8],
    profile: u32,
    corners: &mut [[u32; 3]],
    values: &mut [i32],
    shape: &mut DrcShape,
    fault: &mut DrcFault,
) -> u32
    ensures statuses { Contains (DONE ∷ BAD_ARGUMENT ∷ REFUSED ∷ NO_MEMORY ∷ NO_ROOM ∷ []) result }
    ensures done { result ≡ DONE → (g : AnyGeometry) × (meaning_in (profile_numbered profile) bytes.now ≡ Ok g) × (shape.new ≡ shape_of g)
        × (corners.new ≡ filled (faces_in g) corners.old) × (values.new ≡ filled (integers_of g) values.old) }
    ensures no_room { result ≡ NO_ROOM → (g : AnyGeometry) × (meaning_in (profile_numbered profile) bytes.now ≡ Ok g) × (shape.new ≡ shape_of g)
        × LacksRoom g (length corners.old) (length values.old) }
    ensures refused { result ≡ REFUSED → (f : AnyFault) × (meaning_in (profile_numbered profile) bytes.now ≡ Err f) × IsTold f fault.new }
    ensures bad { result ≡ BAD_ARGUMENT ↔ is_profile profile ≡ false }
    ensures early { (f : AnyFault) → is_profile profile ≡ true → declared_of bytes.now ≡ Err f → (result ≡ REFUSED) × IsTold f fault.new }

    // What isn't written is as before.
    ensures arrays_same { (result ≡ DONE) ⊎ ((corners.new ≡ corners.old) × (values.new ≡ values.old)) }
    ensures shape_same { (result ≡ DONE) ⊎ (result ≡ NO_ROOM) ⊎ (shape.new ≡ shape.old) }
    ensures fault_same { (result ≡ REFUSED) ⊎ (fault.new ≡ fault.old) }
{
    let profile = match profile_asked(profile) {
        None => return BAD_ARGUMENT,
        Some(profile) => profile,
    };
    match decode(alloc, bytes, profile) {
        Ok(g) => deliver(&g, corners, values, shape),
        Err(refusal) => refuse(refusal, fault),
    }
}

/// A geometry in arrays that C frees.
pub fn handed_out(alloc: Global, g: Geometry) -> DrcGeometry
    ensures { result.shape ≡ shape_of g }
{
    let shape = shape_of(&g);
    let Arrays { corners, values } = arrays_of(alloc, g);
    DrcGeometry {
        shape,
        corners: handed_corners(corners),
        values: handed_values(values),
    }
}

/// Decodes a stream, read in a profile, into arrays of its own, which C's `free` frees: the numbers of the three points of
/// each face, and the integers of all points, point after point. Bytes after the stream's end are ignored.
///
/// `DONE`: the geometry is what the stream means. `BAD_ARGUMENT`: just where `profile` is neither 2 nor 3. `REFUSED`: the stream
/// has this first fault. `NO_MEMORY`: nothing is written. The geometry is as before unless it is done. Faults of the header and
/// of the declared numbers come before out of memory.
#[unsafe(no_mangle)]
pub extern "C" fn drc_decode(
    alloc: Global,
    bytes: &[u8],
    profile: u32,
    out: &mut DrcGeometry,
    fault: &mut DrcFault,
) -> u32
    ensures statuses { Contains (DONE ∷ BAD_ARGUMENT ∷ REFUSED ∷ NO_MEMORY ∷ []) result }
    ensures done { result ≡ DONE → (g : AnyGeometry) × (meaning_in (profile_numbered profile) bytes.now ≡ Ok g) × (out.new.shape ≡ shape_of g) }
    ensures refused { result ≡ REFUSED → (f : AnyFault) × (meaning_in (profile_numbered profile) bytes.now ≡ Err f) × IsTold f fault.new }
    ensures bad { result ≡ BAD_ARGUMENT ↔ is_profile profile ≡ false }
    ensures early { (f : AnyFault) → is_profile profile ≡ true → declared_of bytes.now ≡ Err f → (result ≡ REFUSED) × IsTold f fault.new }

    // What isn't written is as before.
    ensures geometry_same { (result ≡ DONE) ⊎ (out.new ≡ out.old) }
    ensures fault_same { (result ≡ REFUSED) ⊎ (fault.new ≡ fault.old) }
{
    let profile = match profile_asked(profile) {
        None => return BAD_ARGUMENT,
        Some(profile) => profile,
    };
    match decode(alloc, bytes, profile) {
        Ok(g) => {
            *out = handed_out(alloc, g);
            DONE
        }
        Err(refusal) => refuse(refusal, fault),
    }
}
