//! Faults as C has them.

ghost use Rattle.std.specs.Prelude.{◌≡◌};
ghost use Rattle.drc_c.specs.Faults.{IsTold, RefusesBy};

use crate::kinds::number_of;
use crate::statuses::{NO_MEMORY, REFUSED};
use drc_base::{Fault, Refusal};

/// The first fault of an input: the number of its kind and where it is.
#[repr(C)]
#[derive(Clone, Copy, Debug)]
pub struct DrcFault {
    /// The number of its kind.
    pub kind: u32,
    /// Where it is: for a stream a number of bytes, unless the kind says otherwise.
    pub at: u64,
}

// As the header has it.
const _: () = prove!(size_of::<DrcFault>() == 16);

/// A fault as C has it.
fn fault_told(fault: Fault) -> DrcFault
    ensures { IsTold fault result }
{
    DrcFault {
        kind: number_of(fault.kind),
        at: fault.at,
    }
}

/// The status of a refusal, whose fault is written where it has one.
pub fn refuse(refusal: Refusal, fault: &mut DrcFault) -> u32
    ensures { RefusesBy refusal fault.old fault.new result }
{
    match refusal {
        Refusal::Fault(found) => {
            *fault = fault_told(found);
            REFUSED
        }
        Refusal::Memory => NO_MEMORY,
    }
}
