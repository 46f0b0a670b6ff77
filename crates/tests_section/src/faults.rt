//! What fault is to be found.

use drc_base::{Fault, Kind};
use std::process::Abort;

/// The fault that was found in these bytes is of this kind and at this place.
pub(crate) fn is_fault(rt: &impl Abort, found: Option<Fault>, kind: Kind, at: u64, bytes: &[u8]) {
    assert_eq!(rt; found, Some(Fault { kind, at }), "{bytes:?}");
}
