//! The encoder's walk over a surface (Edgebreaker: Rossignac 1999; split events: Isenburg and Snoeyink
//! 2001), as definitions and as code, and that it keeps the surface. The contract above it: of every
//! surface whose faces have three fans each, the walk lists each face once, and the machine of reverse
//! decoding that is fed what the walk notes meets no fault and rebuilds the surface in the walk's order.
#![tactic(auto)]

mod laws;
mod marks;
mod notes;
mod numbers;
mod surface;
mod tracing;
mod walk;

pub use laws::{fans_are_counted, readable_is_rebuilt, walk_keeps_surface};
pub use tracing::{Traced, trace};
