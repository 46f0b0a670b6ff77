//! Tests of whole streams and files: of the crates `drc_container`, `drc_info`, `drc_recode`, `drc_verify` and `kd_points`, each in
//! files of its name. They try what no clause says: that the calls succeed with ample memory, and that the definitions are the ones
//! meant, on streams, texts and rows that were worked by hand or beside.
#![tactic(auto)]

#[cfg(test)]
mod drc_container_edgebreaker_reading_tests;
#[cfg(test)]
mod drc_container_edgebreaker_writing_tests;
#[cfg(test)]
mod drc_container_octahedral_tests;
#[cfg(test)]
mod drc_container_sequential_tests;
#[cfg(test)]
mod drc_info_tests;
#[cfg(test)]
mod drc_recode_tests;
#[cfg(test)]
mod drc_verify_tests;
#[cfg(test)]
mod kd_points_tests;
#[cfg(test)]
mod profile_three;
