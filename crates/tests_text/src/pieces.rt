//! Texts in pieces.

use std::alloc::Global;
use std::process::Abort;

/// Appends a piece to a text.
pub fn put(rt: &impl Abort, text: &mut Vec<u8>, piece: &str) {
    text.extend_from_slice(piece.as_bytes()).expect(rt, "room");
}

/// The text of these pieces.
pub fn joined(rt: &impl Abort, alloc: Global, pieces: &[&str]) -> Vec<u8> {
    let mut text = Vec::new(alloc);
    for piece in pieces {
        put(rt, &mut text, piece);
    }
    text
}
