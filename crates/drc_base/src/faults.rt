//! Why a call answers no value: it is out of memory, a source or sink failed, or the input has a
//! fault.

ghost use Rattle.std.specs.Prelude.{◌≡◌};
ghost use Rattle.drc_base.specs.declared.faults.Refusal.TheVariants as refusal;

use crate::kinds::Kind;
use std::alloc::{AllocError, AllocFailed};
use thiserror::Error;

/// Out of memory.
#[derive(Clone, Copy, Debug, PartialEq, Eq, Error)]
#[error("memory wanting")]
pub struct Memory;

/// A source or a sink failed.
#[derive(Clone, Copy, Debug, PartialEq, Eq, Error)]
#[error("reading or writing failed")]
pub struct Failed;

/// The first fault of an input: its kind and where it is. For a stream `at` is a number of bytes
/// before the item that shows the fault, for PLY text a line number from 1, else as the kind says.
#[derive(Clone, Copy, Debug, PartialEq, Eq)]
pub struct Fault {
    /// What is wrong.
    pub kind: Kind,
    /// Where it is.
    pub at: u64,
}

impl Fault {
    /// The fault of this kind at this place.
    pub fn new(kind: Kind, at: u64) -> Fault
        ensures { result ≡ record { kind = kind; at = at } }
    {
        Fault { kind, at }
    }
}

/// Why a call that reads or builds something answers no value.
#[derive(Clone, Copy, Debug, PartialEq, Eq)]
pub enum Refusal {
    /// The input has this fault.
    Fault(Fault),
    /// Out of memory.
    Memory,
}

impl From<AllocError> for Memory {
    fn from(_error: AllocError) -> Memory {
        Memory
    }
}

impl<T: Drop> From<AllocFailed<T>> for Memory {
    fn from(_error: AllocFailed<T>) -> Memory {
        Memory
    }
}

impl From<AllocError> for Refusal {
    ghost from_gives = { λ _ e. e ≡ refusal.Memory };

    fn from(_error: AllocError) -> Refusal {
        Refusal::Memory
    }
}

impl<T: Drop> From<AllocFailed<T>> for Refusal {
    ghost from_gives = { λ _ e. e ≡ refusal.Memory };

    fn from(_error: AllocFailed<T>) -> Refusal {
        Refusal::Memory
    }
}

impl From<Memory> for Refusal {
    ghost from_gives = { λ _ e. e ≡ refusal.Memory };

    fn from(_error: Memory) -> Refusal {
        Refusal::Memory
    }
}

impl From<Fault> for Refusal {
    ghost from_gives = { λ f e. e ≡ refusal.Fault f };

    fn from(fault: Fault) -> Refusal {
        Refusal::Fault(fault)
    }
}
