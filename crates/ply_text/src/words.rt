//! The words of a PLY header.

ghost use Rattle.std.specs.Prelude.{◌≡◌, IsTrue};
ghost use Rattle.std.specs.Str.{bytes_eq};
ghost use Rattle.ply_text.specs.Words.{keyword_of, is_indices};

/// What the first word of a header line says.
#[derive(Clone, Copy)]
pub(crate) enum Keyword {
    Comment,
    ObjInfo,
    Element,
    Property,
    EndHeader,
    Other,
}

pub(crate) fn is_word(token: &[u8], word: &[u8]) -> bool
    ensures value { result ≡ bytes_eq token.now word.now }
    ensures same { IsTrue result → token.now ≡ word.now }
{
    token == word
}

#[tactic(auto, unfolding(crate::specs::Words::keyword_of))]
pub(crate) fn keyword_of(token: &[u8]) -> Keyword
    ensures { result ≡ keyword_of token.now }
{
    if is_word(token, b"comment") {
        return Keyword::Comment;
    }
    if is_word(token, b"obj_info") {
        return Keyword::ObjInfo;
    }
    if is_word(token, b"element") {
        return Keyword::Element;
    }
    if is_word(token, b"property") {
        return Keyword::Property;
    }
    if is_word(token, b"end_header") {
        return Keyword::EndHeader;
    }
    Keyword::Other
}

#[tactic(auto, unfolding(crate::specs::Words::is_indices))]
pub(crate) fn is_indices(token: &[u8]) -> bool
    ensures { result ≡ is_indices token.now }
{
    is_word(token, b"vertex_indices") || is_word(token, b"vertex_index")
}
