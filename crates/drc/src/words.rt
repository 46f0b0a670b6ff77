//! The words of the command line, as the system gives them.

use std::alloc::{AllocError, AllocFailed, Global};
use std::env::{Env, FillError};

/// How many bytes of a word are asked for at first.
const FIRST_ROOM: usize = 256;

/// Why there are no words.
#[derive(Clone, Copy, Debug, PartialEq, Eq)]
pub enum NoWords {
    /// A word isn't UTF-8.
    NotText,
    /// Out of memory.
    Memory,
}

impl From<AllocError> for NoWords {
    fn from(_error: AllocError) -> NoWords {
        NoWords::Memory
    }
}

impl<T: Drop> From<AllocFailed<T>> for NoWords {
    fn from(_error: AllocFailed<T>) -> NoWords {
        NoWords::Memory
    }
}

/// The words, without the program's name, which isn't looked at.
pub fn words_of(system: &impl Env, alloc: Global) -> Result<Vec<String>, NoWords> {
    let mut words = Vec::new(alloc);
    for number in 1..usize::MAX {
        match word_at(system, alloc, number)? {
            Some(word) => words.push(word)?,
            None => break,
        }
    }
    Ok(words)
}

/// The word of this number, or None behind the last one. The room for it is doubled until it fits.
fn word_at(system: &impl Env, alloc: Global, number: usize) -> Result<Option<String>, NoWords> {
    let mut room = FIRST_ROOM;
    for _ in 0..usize::BITS {
        let mut bytes = vec![in alloc; 0u8; room]?;
        match system.arg(number, &mut bytes) {
            Ok(len) => {
                bytes.truncate(len);
                return Ok(Some(text_of(bytes)?));
            }
            Err(FillError::NotPresent) => return Ok(None),
            Err(FillError::TooLong) => room = room.saturating_mul(2),
        }
    }
    Err(NoWords::Memory)
}

/// These bytes as text.
fn text_of(bytes: Vec<u8>) -> Result<String, NoWords> {
    match String::from_utf8(bytes) {
        Ok(text) => Ok(text),
        Err(_) => Err(NoWords::NotText),
    }
}
