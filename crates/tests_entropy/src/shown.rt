//! What an answer is, asserted.

use drc_base::{Fault, Kind};
use std::process::Abort;

/// Asserts that a number is the one wanted.
pub fn is_number(rt: &impl Abort, number: u64, wanted: u64) {
    assert_eq!(rt; number, wanted);
}

/// Asserts that bytes are those wanted.
pub fn are_bytes(rt: &impl Abort, bytes: &[u8], wanted: &[u8]) {
    assert_eq!(rt; bytes, wanted);
}

/// Asserts that the fault of these bytes is the one wanted.
pub fn is_fault(rt: &impl Abort, bytes: &[u8], fault: Option<Fault>, kind: Kind, at: u64) {
    assert_eq!(rt; fault, Some(Fault::new(kind, at)), "at {bytes:?}");
}
