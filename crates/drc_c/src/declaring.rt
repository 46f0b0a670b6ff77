//! What a stream declares, which is known before memory is taken.

ghost use Rattle.std.specs.Prelude.{◌≡◌, ◌↔◌, ◌⊎◌, [], ◌∷◌, Contains, true, false, Ok, Err};
ghost use Rattle.drc_base.specs.declared.faults.Fault.{Fault as AnyFault};
ghost use Rattle.drc_base.specs.Profile.{profile_numbered};
ghost use Rattle.stream_counts.specs.declared.counts.DeclaredCounts.{DeclaredCounts as AnyCounts};
ghost use Rattle.stream_counts.specs.Counts.{counts_declared_in};
ghost use Rattle.drc_container.specs.reading.Stream.{meaning_in};
ghost use Rattle.drc_c.specs.Faults.{IsTold};
ghost use Rattle.drc_c.specs.Profiles.{is_profile};
ghost use Rattle.drc_c.specs.Shapes.{shape_declared};

use crate::faults::{DrcFault, refuse};
use crate::heads::blank_heads;
use crate::profiles::profile_asked;
use crate::shapes::DrcShape;
use crate::statuses::{BAD_ARGUMENT, DONE, REFUSED};
use drc_base::Refusal;
use stream_counts::{DeclaredCounts, declared_counts, declared_faults_come_first};

/// What is declared of a geometry, as C has it.
fn shape_declared(counts: DeclaredCounts) -> DrcShape
    ensures { result ≡ shape_declared counts }
{
    DrcShape {
        mesh: counts.mesh as u32,
        faces: counts.faces,
        points: counts.points,
        width: 0,
        attributes: 0,
        heads: blank_heads(),
    }
}

/// Tells what a stream, read in a profile, declares before its data: whether it is a mesh, and how many faces and points; of an
/// Edgebreaker mesh the vertices that it declares. It takes no memory, and looks at no more than the first bytes.
///
/// `DONE`: the shape has these; its width, its attributes and their heads are zeros. `BAD_ARGUMENT`: just where `profile` is
/// neither 2 nor 3. `REFUSED`: the header or what is declared has a fault, which is the stream's first.
#[unsafe(no_mangle)]
pub extern "C" fn drc_declared(
    bytes: &[u8],
    profile: u32,
    shape: &mut DrcShape,
    fault: &mut DrcFault,
) -> u32
    ensures statuses { Contains (DONE ∷ BAD_ARGUMENT ∷ REFUSED ∷ []) result }
    ensures done { result ≡ DONE → (n : AnyCounts) × (counts_declared_in (profile_numbered profile) bytes.now ≡ Ok n)
        × (shape.new ≡ shape_declared n) }
    ensures bad { result ≡ BAD_ARGUMENT ↔ is_profile profile ≡ false }
    ensures refused { result ≡ REFUSED → (f : AnyFault) × (counts_declared_in (profile_numbered profile) bytes.now ≡ Err f)
        × (meaning_in (profile_numbered profile) bytes.now ≡ Err f) × IsTold f fault.new }

    // What isn't written is as before.
    ensures shape_same { (result ≡ DONE) ⊎ (shape.new ≡ shape.old) }
    ensures fault_same { (result ≡ REFUSED) ⊎ (fault.new ≡ fault.old) }
{
    declared_faults_come_first();
    let profile = match profile_asked(profile) {
        None => return BAD_ARGUMENT,
        Some(profile) => profile,
    };
    match declared_counts(bytes, profile) {
        Ok(counts) => {
            *shape = shape_declared(counts);
            DONE
        }
        Err(found) => refuse(Refusal::Fault(found), fault),
    }
}
