//! Tests of geometries and texts: of the crates `mesh_model`, `drc_gen`, `ply_text` and `ply_mesh`, in files of their names. They
//! try what no clause says: that the calls answer with ample memory, and that the definitions are the ones meant, on meshes, maps and
//! texts that were worked by hand and draws that were computed apart. What several of them ask stands in `pieces` and `shown`.
#![tactic(auto)]

#[cfg(test)]
mod drc_gen_tests;
#[cfg(test)]
mod mesh_model_octahedral_tests;
#[cfg(test)]
mod mesh_model_tests;
#[cfg(test)]
mod pieces;
#[cfg(test)]
mod ply_mesh_tests;
#[cfg(test)]
mod ply_square_tests;
#[cfg(test)]
mod ply_text_tests;
#[cfg(test)]
mod shown;
