//! The words of a generated mesh. They take no memory.

ghost use Rattle.std.specs.Prelude.{◌≡◌};
ghost use Rattle.drc_app.specs.Line.{gen_word};
ghost use Rattle.drc_app.specs.Progress.{gen_named, number_named, sized, size_named};

use crate::words::{Worded, named};
use drc_gen::{GenKind, LEAST_SIZE, MOST_SIZE};
use itoa::Buffer;

/// The kinds.
const KINDS: [GenKind; 5] = [
    GenKind::Grid,
    GenKind::Torus,
    GenKind::Holes,
    GenKind::Fans,
    GenKind::Seams,
];

impl Worded for GenKind {
    ghost spelling = { gen_word };

    fn word(self) -> &'static str {
        match self {
            GenKind::Grid => "grid",
            GenKind::Torus => "torus",
            GenKind::Holes => "holes",
            GenKind::Fans => "fans",
            GenKind::Seams => "seams",
        }
    }
}

/// The kind of this word.
pub fn gen_named(word: &str) -> Option<GenKind>
    ensures { result ≡ gen_named word.now }
{
    named(&KINDS, word)
}

/// The number below 2^64 whose decimal text this word is: no sign, and no leading zero but in `0`
/// itself.
pub fn number_named(word: &str) -> Option<u64>
    ensures { result ≡ number_named word.now }
{
    let number = match word.parse::<u64>() {
        Ok(number) => number,
        Err(_) => return None,
    };
    let mut buffer = Buffer::new();
    if buffer.format(number) == word {
        return Some(number);
    }
    None
}

/// The size, from `LEAST_SIZE` to `MOST_SIZE`, whose decimal text this word is.
pub fn size_named(word: &str) -> Option<u32>
    ensures { result ≡ size_named word.now }
{
    match number_named(word) {
        Some(number) => sized(number),
        None => None,
    }
}

/// The number, if it is the size of a mesh.
fn sized(number: u64) -> Option<u32>
    ensures { result ≡ sized number }
{
    if number >= LEAST_SIZE as u64 && number <= MOST_SIZE as u64 {
        return Some(number as u32);
    }
    None
}
