//! A stream in the order that its faces, or the points of its cloud, had before they were renumbered.

ghost use Rattle.std.specs.Prelude.{◌≡◌, Ok, Err, IfOk, IsOkAnd};
ghost use Rattle.drc_base.specs.declared.faults.Fault.{Fault as AnyFault};
ghost use Rattle.drc_base.specs.declared.faults.Refusal.TheVariants as refusal;
ghost use Rattle.drc_base.specs.Profile.{profile_numbered};
ghost use Rattle.drc_base.specs.Refusals.{Answers};
ghost use Rattle.mesh_model.specs.declared.geometries.Geometry.{Geometry as AnyGeometry};
ghost use Rattle.mesh_model.specs.Same.{Same};
ghost use Rattle.drc_container.specs.writing.Layout.{IsLaidOut};
ghost use Rattle.drc_container.specs.reading.Stream.{meaning_in, declared_of};
ghost use Rattle.drc_recode.specs.FirstOrder.{first_order, StandsAgain};
ghost use Rattle.drc_recode.specs.Restored.{bytes_in_order, sequential_choice, restored_in, MeansInOrder};

use crate::laws::the_first_order_comes_back;
use crate::putting_back::put_back;
use drc_base::{Profile, Refusal};
use drc_container::{Choice, Method, decode, encode};
use mesh_model::{Geometry, MapRead, same_is_an_equivalence};
use std::alloc::Global;

/// The sequential method, and nothing else chosen.
fn in_order() -> Choice
    ensures { result ≡ sequential_choice }
{
    Choice {
        method: Some(Method::Seq),
        index: None,
        predict: None,
        walk: None,
        plain_values: false,
    }
}

/// The stream of a geometry by the sequential method, with nothing else chosen.
fn write_in_order(alloc: Global, g: &Geometry) -> Result<Vec<u8>, Refusal>
    ensures answer { Answers (λ v. v.items) (bytes_in_order g.now) result }
    ensures order { IfOk result (λ v. MeansInOrder g.now v.items) }
    ensures layout { IfOk result (λ v. IsLaidOut g.now sequential_choice v.items) }
{
    let (bytes, _rows) = encode(alloc, g, &in_order())?;
    Ok(bytes)
}

/// The stream, which is read in a profile, in the order that its faces, or the points of its cloud, had before they were renumbered by the
/// rows of a map: that of the text, where the map is what encoding noted. It is written by the sequential method
/// with nothing else chosen, so its points are those of the stream, and its faces stand in the first order with
/// their corners in theirs. That the numbers of points come back is not promised: Edgebreaker's are new.
///
/// Refused with the first of these: the first fault of the stream, whose `at` is a place in it; `MapKind` at 0
/// where the map is of a cloud and the stream of a mesh, or the other way round; `MapCount` at the number of
/// rows where the stream has another number of faces (points of a cloud); `BadMap` at the first row that names
/// no face, names one that an earlier row names, or has a turn above 2 (above 0 for a cloud); and the first
/// reason not to encode it so, as `drc_container::encode`. Faults of what the stream declares
/// come before out of memory.
pub fn restore(
    alloc: Global,
    map: &MapRead,
    stream: &[u8],
    profile: Profile,
) -> Result<Vec<u8>, Refusal>
    ensures answer { Answers (λ v. v.items) (restored_in (profile_numbered profile.number) map.now.cloud map.now.rows.rows stream.now) result }
    ensures early { (f : AnyFault) → declared_of stream.now ≡ Err f → result ≡ Err (refusal.Fault f) }
    ensures stands { IfOk result (λ _. IsOkAnd (meaning_in (profile_numbered profile.number) stream.now) (λ n. StandsAgain n (first_order n map.now.rows.rows) map.now.rows.rows)) }
    ensures order { IfOk result (λ v. (g n : AnyGeometry) → meaning_in (profile_numbered profile.number) stream.now ≡ Ok n → Same g n map.now.rows.rows → MeansInOrder g v.items) }
    ensures layout { IfOk result (λ v. IsOkAnd (meaning_in (profile_numbered profile.number) stream.now) (λ n. IsLaidOut (first_order n map.now.rows.rows) sequential_choice v.items)) }
{
    same_is_an_equivalence();
    the_first_order_comes_back();
    let rows = map.rows.rows.as_slice();
    let read = decode(alloc, stream, profile)?;
    let first = put_back(alloc, map.cloud, rows, read)?;
    let bytes = write_in_order(alloc, &first)?;
    Ok(bytes)
}
