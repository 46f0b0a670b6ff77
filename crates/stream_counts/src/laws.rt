//! What holds of the definitions themselves.

ghost use Rattle.stream_counts.specs.Counts.{DeclaredFaultsComeFirst};

/// Where what a stream declares before its data has a fault, it is the first fault of the stream. This is the contract of a call
/// that does nothing.
#[tactic(auto, using(crate::proofs::FirstFaults::declared_fault))]
pub fn declared_faults_come_first()
    ensures { DeclaredFaultsComeFirst }
{}
