//! Tests of the sections of a stream: of the crates `seq_section`, `eb_section`, `attr_section` and `octahedron`, each in files of
//! its name. They try what no clause says: that the calls answer with ample memory, and give the bytes, surfaces and values that
//! were worked out by hand or by plain programs.
#![tactic(auto)]

#[cfg(test)]
mod attr_section_shape_tests;
#[cfg(test)]
mod attr_section_tests;
#[cfg(test)]
mod attr_section_walk_tests;
#[cfg(test)]
mod attr_section_walk_writing_tests;
#[cfg(test)]
mod eb_section_reading_tests;
#[cfg(test)]
mod eb_section_writing_tests;
#[cfg(test)]
mod faults;
#[cfg(test)]
mod octahedron_tests;
#[cfg(test)]
mod seq_section_tests;
