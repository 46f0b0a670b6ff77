//! The names of faults, and the version of the interface.

ghost use Rattle.std.specs.Prelude.{◌≡◌, ◌≤◌, ◌⊎◌, ◌++◌, [], ◌∷◌, Some, None, length, slice_get};
ghost use Rattle.drc_base.specs.declared.kinds.Kind.{Kind as AnyKind};
ghost use Rattle.drc_base.specs.Kind.{kind_word};
ghost use Rattle.drc_c.specs.Arrays.{filled};

use crate::arrays::fill;
use crate::kinds::{KINDS, kind_numbered};
use crate::statuses::{BAD_ARGUMENT, DONE, NO_ROOM};

/// The version of the interface.
const VERSION: u32 = 3;

/// The version of the interface: of the libraries of one soname, a later one has all that an earlier one had.
#[unsafe(no_mangle)]
pub extern "C" fn drc_version() -> u32
    ensures { result ≡ VERSION }
{
    VERSION
}

/// Writes a text and a zero behind it to the front of an array, where there is room.
#[tactic(auto, using(crate::proofs::Filling::zero_more))]
fn put_text(text: &[u8], name: &mut [u8]) -> u32
    ensures statuses { (result ≡ DONE) ⊎ (result ≡ NO_ROOM) }
    ensures done { result ≡ DONE → name.new ≡ filled (text.now ++ 0 ∷ []) name.old }
    ensures no_room { result ≡ NO_ROOM → (length name.old ≤ length text.now) × (name.new ≡ name.old) }
{
    let end = text.len();
    if name.len() <= end {
        return NO_ROOM;
    }
    fill(name, text);
    name[end] = 0;
    DONE
}

/// Writes the word of a kind of faults, which is at most twelve bytes of ASCII, and a zero behind it.
///
/// `DONE`: it is written. `BAD_ARGUMENT`: no kind has this number. `NO_ROOM`: the array is too short; thirteen bytes are
/// enough for every kind that there is. Nothing is written unless it is done.
#[unsafe(no_mangle)]
pub extern "C" fn drc_fault_name(kind: u32, name: &mut [u8]) -> u32
    ensures statuses { (result ≡ DONE) ⊎ (result ≡ BAD_ARGUMENT) ⊎ (result ≡ NO_ROOM) }
    ensures done { result ≡ DONE → (k : AnyKind) × (slice_get KINDS kind ≡ Some k) × (name.new ≡ filled (kind_word k ++ 0 ∷ []) name.old) }
    ensures unknown { result ≡ BAD_ARGUMENT → slice_get KINDS kind ≡ None }
    ensures no_room { result ≡ NO_ROOM → (k : AnyKind) × (slice_get KINDS kind ≡ Some k) × (length name.old ≤ length (kind_word k)) }
    ensures same { (result ≡ DONE) ⊎ (name.new ≡ name.old) }
{
    match kind_numbered(kind) {
        None => BAD_ARGUMENT,
        Some(kind) => put_text(kind.word().as_bytes(), name),
    }
}
