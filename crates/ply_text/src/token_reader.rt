//! The tokens of a line, one after another.

ghost use Rattle.std.specs.Prelude.{◌≡◌, ◌∷◌, [], MatchOption};
ghost use Rattle.ply_text.specs.Tokens.{tokens_of};

use crate::blanks::{token_end, token_start};
use std::marker::Model;

/// The tokens of a line that are left. Contracts see it as their list.
#[derive(Drop)]
pub(crate) struct TokenReader<'a> {
    line: &'a [u8],
}

impl<'a> Model for TokenReader<'a> {
    ghost use Rattle.std.specs.Prelude.{List, ℕ};
    ghost use Rattle.ply_text.specs.Tokens.{tokens_of};

    ghost Value = { List (List ℕ) };

    ghost view = { λ t. tokens_of t.line.now };
}

impl<'a> TokenReader<'a> {
    pub(crate) fn new(line: &'a [u8]) -> TokenReader<'a>
        ensures { result ≡ tokens_of line.now }
    {
        TokenReader { line }
    }

    /// The first token that is left, taken off. None exactly where none is left.
    #[tactic(auto, using(crate::proofs::Splitting::no_token))]
    pub(crate) fn next(&mut self) -> Option<&'a [u8]>
        ensures { MatchOption result ((self.old ≡ []) × (self.new ≡ [])) (λ token. self.old ≡ token.now ∷ self.new) }
    {
        let line = self.line;
        let start = token_start(line, 0);
        if start == line.len() {
            return None;
        }
        let end = token_end(line, start);
        self.line = &line[end..];
        Some(&line[start..end])
    }
}
