//! Tests of bytes, bits and the entropy codings: of the crates `drc_base`, `drc_bits`, `rans_core`, `rans_binary`, `symbol_tables`,
//! `symbol_coding`, `shortest_blocks` and `kd_tree`, each in a file of its name. They try what no clause says: that the calls answer with ample memory,
//! and give the bytes that were worked out by hand or that another program gave. What several of them ask stands in `shown`.
#![tactic(auto)]

#[cfg(test)]
mod drc_base_tests;
#[cfg(test)]
mod drc_bits_tests;
#[cfg(test)]
mod kd_tree_tests;
#[cfg(test)]
mod rans_binary_tests;
#[cfg(test)]
mod rans_core_tests;
#[cfg(test)]
mod shortest_blocks_tests;
#[cfg(test)]
mod shown;
#[cfg(test)]
mod symbol_coding_tests;
#[cfg(test)]
mod symbol_tables_tests;
