//! Tests of the commands: of the crate `drc_app`, in files of its name. They try what no clause says: that the commands succeed
//! with ample memory, that each read and write that fails is told from the end, and that command lines, outputs and notes are the
//! ones meant, on words, texts and streams that were worked by hand.
#![tactic(auto)]

#[cfg(test)]
mod drc_app_gen_tests;
#[cfg(test)]
mod drc_app_help_tests;
#[cfg(test)]
mod drc_app_tests;
#[cfg(test)]
mod drc_app_verify_tests;
#[cfg(test)]
mod drc_app_words_tests;
#[cfg(test)]
mod runs;
