//! Tests of surfaces: of the crates `corner_table`, `pairing`, `walk_order`, `seams`, `predict`, `wrapped_vectors`, `texture_prediction`,
//! `texture_values`, `normal_prediction`, `octahedral_values`, `eb_rebuild` with `eb_rows`, `eb_trace`, `eb_standard` and `eb_valence`,
//! each in files of its name. They try what no clause says: that the calls answer with ample memory, and what they answer on worked
//! surfaces, whose pairs, orders, seams, values and symbols were computed by plain programs or by hand.
#![tactic(auto)]

#[cfg(test)]
mod corner_table_tests;
#[cfg(test)]
mod eb_rebuild_tests;
#[cfg(test)]
mod eb_standard_tests;
#[cfg(test)]
mod eb_trace_rebuild_tests;
#[cfg(test)]
mod eb_trace_tests;
#[cfg(test)]
mod eb_valence_tests;
#[cfg(test)]
mod normal_prediction_tests;
#[cfg(test)]
mod octahedral_values_tests;
#[cfg(test)]
mod pairing_tests;
#[cfg(test)]
mod predict_surface_tests;
#[cfg(test)]
mod predict_tests;
#[cfg(test)]
mod seams_tests;
#[cfg(test)]
mod sources;
#[cfg(test)]
mod texture_prediction_tests;
#[cfg(test)]
mod texture_values_tests;
#[cfg(test)]
mod walk_order_tests;
#[cfg(test)]
mod wrapped_vectors_tests;
