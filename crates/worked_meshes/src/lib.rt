//! Worked meshes for the tests of the other crates, made of faces as `worked_surfaces` has them: each point has a position
//! and nothing else. Tests alone call this crate.
#![tactic(auto)]

mod meshes;

pub use meshes::{mesh_at, mesh_of, position_head};
