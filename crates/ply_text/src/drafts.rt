//! A header that is read line by line.

ghost use Rattle.std.specs.Prelude.{◌≡◌, ◌<◌, ◌≤◌, [], All, IfOk, IfSome, OnOk, vec_len};
ghost use Rattle.drc_base.specs.Refusals.{Answers};
ghost use Rattle.ply_text.specs.Tokens.{tokens_of};
ghost use Rattle.ply_text.specs.Draft.{draft_of, element, scalar, list, attribute, quantisation, square, comment, declaration, body, statement};
ghost use Rattle.ply_text.specs.Comments.{with_quant, with_octa};
ghost use Rattle.ply_text.specs.IsHeader.{HeadFits, FitsAt, FitsSquareAt, HasType, IsDraft};

use crate::comments::{attr_of, is_octa, octa_of, quant_of};
use crate::headers::Property;
use crate::integers::natural_within;
use crate::property_types::type_of;
use crate::statements::{element_of, is_form, is_format, is_list, keyword_at, list_of, scalar_of};
use crate::words::{Keyword, is_indices, is_word};
use attr_heads::{Head, Quant};
use drc_base::{
    Fault, Kind, MAX_ATTRIBUTES, MAX_FACES, MAX_POINTS, Memory, Profile, Refusal, Sequence,
};
use std::alloc::Global;

/// What the lines of a header have declared so far.
#[derive(Drop)]
pub(crate) struct HeaderDraft {
    /// Whether the format's line came.
    pub formatted: bool,
    pub heads: Vec<Head>,
    pub vertices: Option<u32>,
    pub properties: Vec<Property>,
    pub faces: Option<u32>,
    pub list: Option<(u8, u8)>,
}

/// A list of these bytes.
fn copied(alloc: Global, bytes: &[u8]) -> Result<Sequence<u8>, Memory>
    ensures { IfOk result (λ copy. copy ≡ bytes.now) }
{
    Ok(Sequence::from_vec(bytes.to_vec(alloc)?))
}

impl HeaderDraft {
    /// An `element` line.
    #[tactic(auto, unfolding(crate::specs::Draft::element))]
    fn element(&mut self, at: u64, line: &[u8]) -> Result<(), Refusal>
        requires { IsDraft (draft_of self.old) }
        ensures step { Answers (λ _. draft_of self.new) (element at (draft_of self.old) (tokens_of line.now)) result }
        ensures sound { OnOk result (IsDraft (draft_of self.new)) }
    {
        let Some((name, number)) = element_of(line) else {
            return Err(Refusal::Fault(Fault::new(Kind::PlyHeader, at)));
        };
        if is_word(name, b"vertex") && self.vertices.is_none() {
            let Some(count) = natural_within(number, MAX_POINTS as u64) else {
                return Err(Refusal::Fault(Fault::new(Kind::PointLimit, at)));
            };
            self.vertices = Some(count as u32);
            return Ok(());
        }
        if is_word(name, b"face") && self.vertices.is_some() && self.faces.is_none() {
            let Some(count) = natural_within(number, MAX_FACES as u64) else {
                return Err(Refusal::Fault(Fault::new(Kind::FaceLimit, at)));
            };
            self.faces = Some(count as u32);
            return Ok(());
        }
        Err(Refusal::Fault(Fault::new(Kind::PlyElement, at)))
    }

    /// A property of numbers.
    #[tactic(auto, unfolding(crate::specs::Draft::scalar))]
    fn scalar(&mut self, alloc: Global, at: u64, line: &[u8]) -> Result<(), Refusal>
        requires { IsDraft (draft_of self.old) }
        ensures step { Answers (λ _. draft_of self.new) (scalar at (draft_of self.old) (tokens_of line.now)) result }
        ensures sound { OnOk result (IsDraft (draft_of self.new)) }
    {
        let Some((word, name)) = scalar_of(line) else {
            return Err(Refusal::Fault(Fault::new(Kind::PlyHeader, at)));
        };
        let Some(dtype) = type_of(word) else {
            return Err(Refusal::Fault(Fault::new(Kind::PlyType, at)));
        };
        if self.vertices.is_none() || self.faces.is_some() {
            return Err(Refusal::Fault(Fault::new(Kind::PlyElement, at)));
        }
        let name = copied(alloc, name)?;
        self.properties.push(Property { dtype, name })?;
        Ok(())
    }

    /// A property of lists.
    #[tactic(auto, unfolding(crate::specs::Draft::list))]
    fn list(&mut self, at: u64, line: &[u8]) -> Result<(), Refusal>
        requires { IsDraft (draft_of self.old) }
        ensures step { Answers (λ _. draft_of self.new) (list at (draft_of self.old) (tokens_of line.now)) result }
        ensures sound { OnOk result (IsDraft (draft_of self.new)) }
    {
        let Some((count, index, name)) = list_of(line) else {
            return Err(Refusal::Fault(Fault::new(Kind::PlyHeader, at)));
        };
        let Some(ctype) = type_of(count) else {
            return Err(Refusal::Fault(Fault::new(Kind::PlyType, at)));
        };
        let Some(itype) = type_of(index) else {
            return Err(Refusal::Fault(Fault::new(Kind::PlyType, at)));
        };
        if self.vertices.is_some() && self.faces.is_none() {
            return Err(Refusal::Fault(Fault::new(Kind::PlyType, at)));
        }
        if self.faces.is_some() && self.list.is_none() && is_indices(name) {
            self.list = Some((ctype, itype));
            return Ok(());
        }
        Err(Refusal::Fault(Fault::new(Kind::PlyElement, at)))
    }

    /// An attribute's line.
    #[tactic(auto, unfolding(crate::specs::Draft::attribute))]
    fn attribute(&mut self, at: u64, line: &[u8]) -> Result<(), Refusal>
        requires { IsDraft (draft_of self.old) }
        ensures step { Answers (λ _. draft_of self.new) (attribute at (draft_of self.old) (tokens_of line.now)) result }
        ensures sound { OnOk result (IsDraft (draft_of self.new)) }
    {
        if self.heads.len() >= MAX_ATTRIBUTES as usize {
            return Err(Refusal::Fault(Fault::new(Kind::AttrLimit, at)));
        }
        let Some(head) = attr_of(self.heads.len() as u64, line) else {
            return Err(Refusal::Fault(Fault::new(Kind::PlyAttr, at)));
        };
        self.heads.push(head)?;
        Ok(())
    }

    /// A quantisation's line.
    #[tactic(auto, unfolding(crate::specs::Draft::quantisation))]
    fn quantisation(&mut self, alloc: Global, at: u64, line: &[u8]) -> Result<(), Refusal>
        requires { IsDraft (draft_of self.old) }
        ensures step { Answers (λ _. draft_of self.new) (quantisation at (draft_of self.old) (tokens_of line.now)) result }
        ensures sound { OnOk result (IsDraft (draft_of self.new)) }
    {
        match quant_of(alloc, &self.heads, line)? {
            None => Err(Refusal::Fault(Fault::new(Kind::PlyAttr, at))),
            Some(found) => {
                set_quant(&mut self.heads, found.0, found.1);
                Ok(())
            }
        }
    }

    /// A square's line.
    #[tactic(auto, unfolding(crate::specs::Draft::square))]
    fn square(&mut self, at: u64, line: &[u8]) -> Result<(), Refusal>
        requires { IsDraft (draft_of self.old) }
        ensures step { Answers (λ _. draft_of self.new) (square at (draft_of self.old) (tokens_of line.now)) result }
        ensures sound { OnOk result (IsDraft (draft_of self.new)) }
    {
        match octa_of(&self.heads, line) {
            None => Err(Refusal::Fault(Fault::new(Kind::PlyAttr, at))),
            Some(found) => {
                set_octa(&mut self.heads, found.0, found.1);
                Ok(())
            }
        }
    }

    /// A comment: any but the forms of this project's own that the profile has says nothing.
    #[tactic(auto, unfolding(crate::specs::Draft::comment))]
    fn comment(
        &mut self,
        alloc: Global,
        profile: Profile,
        at: u64,
        line: &[u8],
    ) -> Result<(), Refusal>
        requires { IsDraft (draft_of self.old) }
        ensures step { Answers (λ _. draft_of self.new) (comment profile.number at (draft_of self.old) (tokens_of line.now)) result }
        ensures sound { OnOk result (IsDraft (draft_of self.new)) }
    {
        if is_form(b"attr", line) {
            return self.attribute(at, line);
        }
        if is_form(b"quant", line) {
            return self.quantisation(alloc, at, line);
        }
        if is_octa(profile, line) {
            return self.square(at, line);
        }
        Ok(())
    }

    /// A line after the format's.
    fn declaration(
        &mut self,
        alloc: Global,
        at: u64,
        line: &[u8],
        word: Keyword,
    ) -> Result<(), Refusal>
        requires { IsDraft (draft_of self.old) }
        ensures step { Answers (λ _. draft_of self.new) (declaration at (draft_of self.old) (tokens_of line.now) word) result }
        ensures sound { OnOk result (IsDraft (draft_of self.new)) }
    {
        match word {
            Keyword::Element => self.element(at, line),
            Keyword::Property => {
                if is_list(line) {
                    return self.list(at, line);
                }
                self.scalar(alloc, at, line)
            }
            _ => Err(Refusal::Fault(Fault::new(Kind::PlyHeader, at))),
        }
    }

    /// Any other line than a comment: the first is the format's.
    #[tactic(auto, unfolding(crate::specs::Draft::body))]
    fn body(&mut self, alloc: Global, at: u64, line: &[u8], word: Keyword) -> Result<(), Refusal>
        requires { IsDraft (draft_of self.old) }
        ensures step { Answers (λ _. draft_of self.new) (body at (draft_of self.old) (tokens_of line.now) word) result }
        ensures sound { OnOk result (IsDraft (draft_of self.new)) }
    {
        if self.formatted {
            return self.declaration(alloc, at, line, word);
        }
        if !is_format(line) {
            return Err(Refusal::Fault(Fault::new(Kind::PlyFormat, at)));
        }
        self.formatted = true;
        Ok(())
    }

    /// Any line of a header but the first and the last.
    #[tactic(auto, unfolding(crate::specs::Draft::statement))]
    pub(crate) fn statement(
        &mut self,
        alloc: Global,
        profile: Profile,
        at: u64,
        line: &[u8],
    ) -> Result<(), Refusal>
        requires { IsDraft (draft_of self.old) }
        ensures step { Answers (λ _. draft_of self.new) (statement profile.number at (draft_of self.old) (tokens_of line.now)) result }
        ensures sound { OnOk result (IsDraft (draft_of self.new)) }
    {
        match keyword_at(line) {
            Keyword::Comment => self.comment(alloc, profile, at, line),
            Keyword::ObjInfo => Ok(()),
            word => self.body(alloc, at, line, word),
        }
    }
}

/// Gives head `number` a quantisation.
#[tactic(auto, using(crate::proofs::Heads::with_quant_is))]
fn set_quant(heads: &mut Vec<Head>, number: usize, quant: Quant)
    requires number { number < vec_len heads.old }
    requires heads { All HeadFits heads.old.items }
    requires quant { FitsAt heads.old.items number quant }
    ensures set { heads.new.items ≡ with_quant number quant heads.old.items }
    ensures heads { All HeadFits heads.new.items }
    ensures len { vec_len heads.new ≡ vec_len heads.old }
{
    let head = &mut heads[number];
    head.quant = Some(quant);
}

/// Gives head `number` a square of so many bits.
#[tactic(auto, using(crate::proofs::Heads::with_octa_is))]
fn set_octa(heads: &mut Vec<Head>, number: usize, bits: u8)
    requires number { number < vec_len heads.old }
    requires heads { All HeadFits heads.old.items }
    requires square { FitsSquareAt heads.old.items number bits }
    ensures set { heads.new.items ≡ with_octa number bits heads.old.items }
    ensures heads { All HeadFits heads.new.items }
    ensures len { vec_len heads.new ≡ vec_len heads.old }
{
    let head = &mut heads[number];
    head.octa = Some(bits);
}
