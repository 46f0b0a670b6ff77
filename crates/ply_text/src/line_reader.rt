//! The lines of a text, one after another.

ghost use Rattle.std.specs.Prelude.{◌≡◌, ◌+◌, ◌<◌, ◌≤◌, ◌∷◌, [], length, drop, take, MatchOption};
ghost use Rattle.std.specs.Str.Lines.{lines, strip_carriage_return};

use std::marker::Model;

/// The lines of a text that are left. Contracts see it as their list. A line is the bytes up to an
/// LF, without a CR right before it; a last line without an LF counts where it isn't empty, and keeps
/// its CR (PLY 1.0; the last two rules are this project's choice).
#[derive(Drop)]
pub struct Lines<'a> {
    rest: &'a [u8],
}

impl<'a> Model for Lines<'a> {
    ghost use Rattle.std.specs.Prelude.{List, ℕ};
    ghost use Rattle.std.specs.Str.Lines.{lines};

    ghost Value = { List (List ℕ) };

    ghost view = { λ l. lines l.rest.now };
}

impl<'a> Lines<'a> {
    /// All lines of `bytes`, none taken yet.
    #[tactic(auto, using(crate::proofs::Cutting::few_lines))]
    pub fn new(bytes: &'a [u8]) -> Lines<'a>
        ensures lines { result ≡ lines bytes.now }
        ensures few { length result ≤ length bytes.now + 1 }
    {
        Lines { rest: bytes }
    }

    /// The text of the lines that are left.
    pub fn rest(&self) -> &'a [u8]
        ensures { self.now ≡ lines result.now }
    {
        self.rest
    }

    /// The first line that is left, taken off. None exactly where none is left.
    pub fn next(&mut self) -> Option<&'a [u8]>
        ensures { MatchOption result ((self.old ≡ []) × (self.new ≡ [])) (λ line. self.old ≡ line.now ∷ self.new) }
    {
        let rest = self.rest;
        if rest.is_empty() {
            return None;
        }
        let end = line_end(rest);
        if end == rest.len() {
            self.rest = &rest[end..];
            return Some(rest);
        }
        self.rest = &rest[end + 1..];
        Some(without_return(&rest[..end]))
    }
}

/// The place of the first LF, or the length of the text.
#[tactic(auto, using(crate::proofs::Cutting::more_plain, crate::proofs::Cutting::cuts_line, crate::proofs::Cutting::ends_line, crate::proofs::Cutting::none_plain))]
fn line_end(text: &[u8]) -> usize
    ensures within { result ≤ length text.now }
    ensures first { result < length text.now → lines text.now ≡ strip_carriage_return (take result text.now) ∷ lines (drop (result + 1) text.now) }
    ensures last { result ≡ length text.now → 0 < length text.now → lines text.now ≡ text.now ∷ [] }
{
    for i in 0..text.len() {
        if text[i] == b'\n' {
            return i;
        }
    }
    text.len()
}

/// The line without the CR at its end, if it has one.
fn without_return(line: &[u8]) -> &[u8]
    ensures { result.now ≡ strip_carriage_return line.now }
{
    let n = line.len();
    if n > 0 && line[n - 1] == b'\r' {
        &line[..n - 1]
    } else {
        line
    }
}
