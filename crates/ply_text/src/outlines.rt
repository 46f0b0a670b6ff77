//! The lines of a header, tested without memory: of what they declare it is kept what the tests of the next lines need.
//! So the faults of these lines are found before a list is made.

ghost use Rattle.std.specs.Prelude.{◌≡◌, false};
ghost use Rattle.ply_text.specs.Tokens.{tokens_of};
ghost use Rattle.ply_text.specs.declared.words.Keyword.TheVariants as word_of;
ghost use Rattle.ply_text.specs.DeclaredLines.{Follows, no_outline, is_detail_by, is_detail};
ghost use Rattle.ply_text.specs.Draft.{element, scalar, list, attribute, comment, declaration, body, statement};

use crate::comments::{attr_of, is_octa};
use crate::integers::natural_within;
use crate::property_types::type_of;
use crate::statements::{element_of, is_form, is_format, is_list, keyword_at, list_of, scalar_of};
use crate::words::{Keyword, is_indices, is_word};
use drc_base::{Fault, Kind, MAX_ATTRIBUTES, MAX_FACES, MAX_POINTS, Profile};
use std::marker::Model;

/// What the lines of a header have declared so far, as far as the tests of the next lines need it. Contracts see it as
/// these parts.
#[derive(Drop)]
pub(crate) struct Outline {
    /// Whether the format's line came.
    formatted: bool,
    /// How many attributes comments gave.
    heads: u32,
    vertices: Option<u32>,
    faces: Option<u32>,
    list: Option<(u8, u8)>,
}

impl Model for Outline {
    ghost use Rattle.ply_text.specs.DeclaredLines.{OutlineParts};

    ghost Value = { OutlineParts };

    ghost view = { λ o. record { formatted = o.formatted; heads = o.heads; vertices = o.vertices; faces = o.faces; list = o.list } };
}

impl Outline {
    /// Nothing is declared yet.
    pub(crate) fn none() -> Outline
        ensures { result ≡ no_outline }
    {
        Outline {
            formatted: false,
            heads: 0,
            vertices: None,
            faces: None,
            list: None,
        }
    }

    /// Whether the format's line came.
    pub(crate) fn is_formatted(&self) -> bool
        ensures { result ≡ self.now.formatted }
    {
        self.formatted
    }

    /// An `element` line.
    #[tactic(auto, unfolding(crate::specs::Draft::element))]
    fn element(&mut self, at: u64, line: &[u8]) -> Result<(), Fault>
        ensures { Follows (λ d. element at d (tokens_of line.now)) self.old self.new result }
    {
        let Some((name, number)) = element_of(line) else {
            return Err(Fault::new(Kind::PlyHeader, at));
        };
        if is_word(name, b"vertex") && self.vertices.is_none() {
            let Some(count) = natural_within(number, MAX_POINTS as u64) else {
                return Err(Fault::new(Kind::PointLimit, at));
            };
            self.vertices = Some(count as u32);
            return Ok(());
        }
        if is_word(name, b"face") && self.vertices.is_some() && self.faces.is_none() {
            let Some(count) = natural_within(number, MAX_FACES as u64) else {
                return Err(Fault::new(Kind::FaceLimit, at));
            };
            self.faces = Some(count as u32);
            return Ok(());
        }
        Err(Fault::new(Kind::PlyElement, at))
    }

    /// A property of numbers.
    #[tactic(auto, unfolding(crate::specs::Draft::scalar))]
    fn scalar(&self, at: u64, line: &[u8]) -> Result<(), Fault>
        ensures { Follows (λ d. scalar at d (tokens_of line.now)) self.now self.now result }
    {
        let Some((word, _)) = scalar_of(line) else {
            return Err(Fault::new(Kind::PlyHeader, at));
        };
        if type_of(word).is_none() {
            return Err(Fault::new(Kind::PlyType, at));
        }
        if self.vertices.is_none() || self.faces.is_some() {
            return Err(Fault::new(Kind::PlyElement, at));
        }
        Ok(())
    }

    /// A property of lists.
    #[tactic(auto, unfolding(crate::specs::Draft::list))]
    fn list(&mut self, at: u64, line: &[u8]) -> Result<(), Fault>
        ensures { Follows (λ d. list at d (tokens_of line.now)) self.old self.new result }
    {
        let Some((count, index, name)) = list_of(line) else {
            return Err(Fault::new(Kind::PlyHeader, at));
        };
        let Some(ctype) = type_of(count) else {
            return Err(Fault::new(Kind::PlyType, at));
        };
        let Some(itype) = type_of(index) else {
            return Err(Fault::new(Kind::PlyType, at));
        };
        if self.vertices.is_some() && self.faces.is_none() {
            return Err(Fault::new(Kind::PlyType, at));
        }
        if self.faces.is_some() && self.list.is_none() && is_indices(name) {
            self.list = Some((ctype, itype));
            return Ok(());
        }
        Err(Fault::new(Kind::PlyElement, at))
    }

    /// An attribute's line.
    #[tactic(auto, unfolding(crate::specs::Draft::attribute))]
    fn attribute(&mut self, at: u64, line: &[u8]) -> Result<(), Fault>
        ensures { Follows (λ d. attribute at d (tokens_of line.now)) self.old self.new result }
    {
        if self.heads >= MAX_ATTRIBUTES {
            return Err(Fault::new(Kind::AttrLimit, at));
        }
        if attr_of(u64::from(self.heads), line).is_none() {
            return Err(Fault::new(Kind::PlyAttr, at));
        }
        self.heads += 1;
        Ok(())
    }

    /// A comment that says no more of an attribute.
    #[tactic(auto, unfolding(crate::specs::Draft::comment))]
    fn comment(&mut self, profile: Profile, at: u64, line: &[u8]) -> Result<(), Fault>
        requires { is_detail_by profile.number word_of.Comment (tokens_of line.now) ≡ false }
        ensures { Follows (λ d. comment profile.number at d (tokens_of line.now)) self.old self.new result }
    {
        if is_form(b"attr", line) {
            return self.attribute(at, line);
        }
        Ok(())
    }

    /// A line after the format's.
    fn declaration(&mut self, at: u64, line: &[u8], word: Keyword) -> Result<(), Fault>
        ensures { Follows (λ d. declaration at d (tokens_of line.now) word) self.old self.new result }
    {
        match word {
            Keyword::Element => self.element(at, line),
            Keyword::Property => {
                if is_list(line) {
                    return self.list(at, line);
                }
                self.scalar(at, line)
            }
            _ => Err(Fault::new(Kind::PlyHeader, at)),
        }
    }

    /// Any other line than a comment: the first is the format's.
    #[tactic(auto, unfolding(crate::specs::Draft::body))]
    fn body(&mut self, at: u64, line: &[u8], word: Keyword) -> Result<(), Fault>
        ensures { Follows (λ d. body at d (tokens_of line.now) word) self.old self.new result }
    {
        if self.formatted {
            return self.declaration(at, line, word);
        }
        if !is_format(line) {
            return Err(Fault::new(Kind::PlyFormat, at));
        }
        self.formatted = true;
        Ok(())
    }

    /// Any line of a header but the first and the last that says no more of an attribute.
    #[tactic(auto, unfolding(crate::specs::Draft::statement))]
    pub(crate) fn statement(&mut self, profile: Profile, at: u64, line: &[u8]) -> Result<(), Fault>
        requires { is_detail profile.number (tokens_of line.now) ≡ false }
        ensures { Follows (λ d. statement profile.number at d (tokens_of line.now)) self.old self.new result }
    {
        let word = keyword_at(line);
        match word {
            Keyword::Comment => self.comment(profile, at, line),
            Keyword::ObjInfo => Ok(()),
            _ => self.body(at, line, word),
        }
    }
}

/// Whether the line is a comment that says more of an attribute.
pub(crate) fn is_detail(profile: Profile, line: &[u8]) -> bool
    ensures { result ≡ is_detail profile.number (tokens_of line.now) }
{
    match keyword_at(line) {
        Keyword::Comment => is_form(b"quant", line) || is_octa(profile, line),
        _ => false,
    }
}
