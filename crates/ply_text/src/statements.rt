//! The lines of a header, taken apart.

ghost use Rattle.std.specs.Prelude.{◌≡◌, ◌∷◌, [], option_map};
ghost use Rattle.ply_text.specs.Tokens.{tokens_of};
ghost use Rattle.ply_text.specs.Comments.{is_form};
ghost use Rattle.ply_text.specs.Declarations.{is_magic, is_format, keyword_at, is_alone, element_of, is_list, scalar_of, list_of};

use crate::integers::is_digits;
use crate::token_reader::TokenReader;
use crate::words::{Keyword, is_word, keyword_of};

#[tactic(auto, unfolding(crate::specs::Declarations::is_magic))]
pub(crate) fn is_magic(line: &[u8]) -> bool
    ensures { result ≡ is_magic (tokens_of line.now) }
{
    let mut tokens = TokenReader::new(line);
    let Some(word) = tokens.next() else {
        return false;
    };
    tokens.next().is_none() && is_word(word, b"ply")
}

#[tactic(auto, unfolding(crate::specs::Declarations::is_format))]
pub(crate) fn is_format(line: &[u8]) -> bool
    ensures { result ≡ is_format (tokens_of line.now) }
{
    let mut tokens = TokenReader::new(line);
    let Some(word) = tokens.next() else {
        return false;
    };
    let Some(form) = tokens.next() else {
        return false;
    };
    let Some(version) = tokens.next() else {
        return false;
    };
    if tokens.next().is_some() {
        return false;
    }
    is_word(word, b"format") && is_word(form, b"ascii") && is_word(version, b"1.0")
}

/// What the first word of a line says.
pub(crate) fn keyword_at(line: &[u8]) -> Keyword
    ensures { result ≡ keyword_at (tokens_of line.now) }
{
    let mut tokens = TokenReader::new(line);
    match tokens.next() {
        None => Keyword::Other,
        Some(word) => keyword_of(word),
    }
}

/// Whether the line has exactly one token.
pub(crate) fn is_alone(line: &[u8]) -> bool
    ensures { result ≡ is_alone (tokens_of line.now) }
{
    let mut tokens = TokenReader::new(line);
    if tokens.next().is_none() {
        return false;
    }
    tokens.next().is_none()
}

/// The name and the digits of an `element` line.
#[tactic(auto, unfolding(crate::specs::Declarations::element_of))]
pub(crate) fn element_of(line: &[u8]) -> Option<(&[u8], &[u8])>
    ensures { option_map (λ p. (p.0.now, p.1.now)) result ≡ element_of (tokens_of line.now) }
{
    let mut tokens = TokenReader::new(line);
    let _word = tokens.next()?;
    let name = tokens.next()?;
    let number = tokens.next()?;
    if tokens.next().is_some() || !is_digits(number) {
        return None;
    }
    Some((name, number))
}

#[tactic(auto, unfolding(crate::specs::Declarations::is_list))]
pub(crate) fn is_list(line: &[u8]) -> bool
    ensures { result ≡ is_list (tokens_of line.now) }
{
    let mut tokens = TokenReader::new(line);
    if tokens.next().is_none() {
        return false;
    }
    match tokens.next() {
        None => false,
        Some(word) => is_word(word, b"list"),
    }
}

/// The type and the name of a `property` line.
#[tactic(auto, unfolding(crate::specs::Declarations::scalar_of))]
pub(crate) fn scalar_of(line: &[u8]) -> Option<(&[u8], &[u8])>
    ensures { option_map (λ p. (p.0.now, p.1.now)) result ≡ scalar_of (tokens_of line.now) }
{
    let mut tokens = TokenReader::new(line);
    let _word = tokens.next()?;
    let dtype = tokens.next()?;
    let name = tokens.next()?;
    if tokens.next().is_some() {
        return None;
    }
    Some((dtype, name))
}

/// The types and the name of a `property list` line.
#[tactic(auto, unfolding(crate::specs::Declarations::list_of))]
pub(crate) fn list_of(line: &[u8]) -> Option<(&[u8], &[u8], &[u8])>
    ensures { option_map (λ p. (p.0.now, p.1.now, p.2.now)) result ≡ list_of (tokens_of line.now) }
{
    let mut tokens = TokenReader::new(line);
    let _word = tokens.next()?;
    let _list = tokens.next()?;
    let ctype = tokens.next()?;
    let itype = tokens.next()?;
    let name = tokens.next()?;
    if tokens.next().is_some() {
        return None;
    }
    Some((ctype, itype, name))
}

/// Whether the line is a comment of this project's own, of this form.
#[tactic(auto, unfolding(crate::specs::Comments::is_form))]
pub(crate) fn is_form(form: &[u8], line: &[u8]) -> bool
    ensures { result ≡ is_form form.now (tokens_of line.now) }
{
    let mut tokens = TokenReader::new(line);
    if tokens.next().is_none() {
        return false;
    }
    let Some(drc) = tokens.next() else {
        return false;
    };
    let Some(second) = tokens.next() else {
        return false;
    };
    is_word(drc, b"drc") && is_word(second, form)
}
