//! The report of a stream, as text.

ghost use Rattle.std.specs.Prelude.{◌≡◌, ◌↔◌, ◌⊎◌, ℕ, List, [], ◌∷◌, Contains, true, false, Ok, Err, IfOk, length};
ghost use Rattle.drc_base.specs.declared.faults.Fault.{Fault as AnyFault};
ghost use Rattle.drc_base.specs.declared.faults.Refusal.TheVariants as refusal;
ghost use Rattle.drc_base.specs.Profile.{profile_numbered};
ghost use Rattle.drc_base.specs.Refusals.{Answers};
ghost use Rattle.drc_container.specs.reading.Stream.{declared_of};
ghost use Rattle.drc_info.specs.InfoText.{report_in};
ghost use Rattle.drc_c.specs.Faults.{IsTold};
ghost use Rattle.drc_c.specs.Reports.{ended_report};
ghost use Rattle.drc_c.specs.Profiles.{is_profile};

use crate::faults::{DrcFault, refuse};
use crate::handing::handed_bytes;
use crate::profiles::profile_asked;
use crate::statuses::{BAD_ARGUMENT, DONE, NO_MEMORY, REFUSED};
use drc_base::{Profile, Refusal};
use drc_info::report;
use std::alloc::Global;

/// A text, which C frees: its bytes, and a zero behind them.
#[repr(C)]
#[derive(Drop)]
pub struct DrcText {
    /// How many bytes it has, without the zero.
    pub length: usize,
    /// The bytes and a zero.
    pub bytes: *mut u8,
}

// As the header has it.
const _: () = prove!(size_of::<DrcText>() == 16);

/// The report of a stream, read in a profile, and a zero behind it; or the stream's first fault.
fn ended_report(alloc: Global, bytes: &[u8], profile: Profile) -> Result<Vec<u8>, Refusal>
    ensures answer { Answers (λ v. v.items) (ended_report (profile_numbered profile.number) bytes.now) result }
    ensures early { (f : AnyFault) → declared_of bytes.now ≡ Err f → result ≡ Err (refusal.Fault f) }
{
    let mut text = report(alloc, bytes, profile)?;
    text.push(0)?;
    Ok(text)
}

/// Writes the report of a stream, read in a profile, as text that C's `free` frees: the lines of `drc info`.
///
/// `DONE`: the text is the report of what the stream means. `BAD_ARGUMENT`: just where `profile` is neither 2 nor 3. `REFUSED`: the
/// stream has this first fault. `NO_MEMORY`: nothing is written. The text is as before unless it is done. Faults of the header and
/// of the declared numbers come before out of memory.
#[unsafe(no_mangle)]
pub extern "C" fn drc_info(
    alloc: Global,
    bytes: &[u8],
    profile: u32,
    out: &mut DrcText,
    fault: &mut DrcFault,
) -> u32
    ensures statuses { Contains (DONE ∷ BAD_ARGUMENT ∷ REFUSED ∷ NO_MEMORY ∷ []) result }
    ensures done { result ≡ DONE → (text : List ℕ) × (report_in (profile_numbered profile) bytes.now ≡ Ok text)
        × (out.new.length ≡ length text) }
    ensures bad { result ≡ BAD_ARGUMENT ↔ is_profile profile ≡ false }
    ensures refused { result ≡ REFUSED → (f : AnyFault) × (report_in (profile_numbered profile) bytes.now ≡ Err f) × IsTold f fault.new }
    ensures early { (f : AnyFault) → is_profile profile ≡ true → declared_of bytes.now ≡ Err f → (result ≡ REFUSED) × IsTold f fault.new }

    // What isn't written is as before.
    ensures text_same { (result ≡ DONE) ⊎ (out.new ≡ out.old) }
    ensures fault_same { (result ≡ REFUSED) ⊎ (fault.new ≡ fault.old) }
{
    let profile = match profile_asked(profile) {
        None => return BAD_ARGUMENT,
        Some(profile) => profile,
    };
    match ended_report(alloc, bytes, profile) {
        Ok(text) => {
            let length = text.len() - 1;
            *out = DrcText {
                length,
                bytes: handed_bytes(text),
            };
            DONE
        }
        Err(refusal) => refuse(refusal, fault),
    }
}
