//! Tables of words. They take no memory.

ghost use Rattle.std.specs.Prelude.{◌≡◌, List, ℕ};
ghost use Rattle.drc_app.specs.Words.{value_named, word_rows};

/// A value that has a word.
pub trait Worded: Copy {
    ghost spelling: { Self → List ℕ };

    /// Its word.
    fn word(self) -> &'static str
        ensures { result.now ≡ spelling self };
}

/// What a word names among these values: the first whose word it is.
pub fn named<A: Worded>(all: &[A], word: &str) -> Option<A>
    ensures { result ≡ value_named (word_rows A.spelling all.now) word.now }
{
    for value in all {
        if word == value.word() {
            return Some(*value);
        }
    }
    None
}
