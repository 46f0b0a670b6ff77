//! The codings of attributes in a stream, each by its row of one table.

ghost use Rattle.std.specs.Prelude.{◌≡◌};
ghost use Rattle.attr_heads.specs.Codings.{coding_facts, coding_of, codes_type, has_fixed, goes_with, integers_under, unread_bits, coded, type_coding, head_coding, coded_comps, coded_under, octahedral_components};

use crate::data_types::{is_float, is_integer};
use crate::heads::Head;
use crate::octahedra::{OCTAHEDRAL_COMPONENTS, OCTAHEDRAL_INTEGERS, OCTAHEDRAL_SINCE};
use drc_base::Kind;

/// How the values of an attribute stand in a stream (Draco Bitstream Specification 2.2, section "Sequential Attributes").
#[derive(Clone, Copy, Debug, PartialEq, Eq)]
pub enum Coding {
    /// Floats as they are.
    Generic,
    /// Integers.
    Integer,
    /// Quantised floats: integers, and the quantisation at the end of the decoder.
    Quantised,
    /// Normals as points of an octahedron.
    Octahedral,
}

/// The components of a coding that fixes them.
#[derive(Clone, Copy, Debug)]
pub struct FixedComponents {
    /// What a head says in a stream.
    pub coded: u8,
    /// The integers of one point.
    pub integers: u8,
}

/// What stands at the end of a decoder for each attribute of a coding.
#[derive(Clone, Copy, Debug)]
pub enum AtEnd {
    /// Nothing.
    Nothing,
    /// A quantisation.
    Quantisation,
    /// The bits of the coordinates in a square.
    SquareBits,
}

/// What is known of a coding.
#[derive(Clone, Copy, Debug)]
pub struct CodingFacts {
    /// Its byte in a stream.
    pub byte: u8,
    /// Whether it codes floats, and else integers.
    pub float: bool,
    /// Its components, where it fixes them.
    pub fixed: Option<FixedComponents>,
    /// The byte of its transform of corrections (0 where it has none).
    pub transform: u8,
    /// What stands at the end of its decoder.
    pub at_end: AtEnd,
    /// The first profile of the stream that has it; no profile has what came with `NEVER`.
    pub since: u32,
    /// The kind of fault that refuses it in a profile that doesn't have it.
    pub refused_as: Kind,
}

/// The number that stands for no profile.
const NEVER: u32 = 256;

impl Coding {
    /// The row of the coding.
    pub fn facts(self) -> CodingFacts
        ensures { result ≡ coding_facts self }
    {
        let (byte, float, fixed, transform, at_end, since, refused_as) = match self {
            Coding::Generic => (0, true, None, 0, AtEnd::Nothing, NEVER, Kind::Generic),
            Coding::Integer => (1, false, None, 1, AtEnd::Nothing, 1, Kind::Coding),
            Coding::Quantised => (2, true, None, 1, AtEnd::Quantisation, 1, Kind::Coding),
            Coding::Octahedral => (
                3,
                true,
                Some(octahedral_components()),
                3,
                AtEnd::SquareBits,
                OCTAHEDRAL_SINCE,
                Kind::Octahedral,
            ),
        };
        CodingFacts {
            byte,
            float,
            fixed,
            transform,
            at_end,
            since,
            refused_as,
        }
    }

    /// The coding of a byte, where there is one.
    pub fn of_byte(byte: u8) -> Option<Coding>
        ensures { result ≡ coding_of byte }
    {
        match byte {
            0 => Some(Coding::Generic),
            1 => Some(Coding::Integer),
            2 => Some(Coding::Quantised),
            3 => Some(Coding::Octahedral),
            _ => None,
        }
    }

    /// The coding of a head's attribute.
    pub fn of_head(head: &Head) -> Coding
        ensures { result ≡ head_coding head.now }
    {
        match head.octa {
            None => of_type(head.dtype),
            Some(_) => Coding::Octahedral,
        }
    }

    /// Whether the coding codes a data type.
    fn codes_type(self, dtype: u8) -> bool
        ensures { result ≡ codes_type self dtype }
    {
        if self.facts().float {
            is_float(dtype)
        } else {
            is_integer(dtype)
        }
    }

    /// Whether the coding goes with a head as it stands in a stream.
    pub fn goes_with(self, head: &Head) -> bool
        ensures { result ≡ goes_with self head.now }
    {
        self.codes_type(head.dtype) && has_fixed(self.facts().fixed, head.comps)
    }
}

/// The components of an octahedral head.
fn octahedral_components() -> FixedComponents
    ensures { result ≡ octahedral_components }
{
    FixedComponents {
        coded: OCTAHEDRAL_COMPONENTS,
        integers: OCTAHEDRAL_INTEGERS,
    }
}

/// The coding of the attributes of a data type that have no square.
fn of_type(dtype: u8) -> Coding
    ensures { result ≡ type_coding dtype }
{
    if is_float(dtype) {
        Coding::Quantised
    } else {
        Coding::Integer
    }
}

/// Whether a head has the components that are fixed, where they are.
fn has_fixed(fixed: Option<FixedComponents>, comps: u8) -> bool
    ensures { result ≡ has_fixed fixed comps }
{
    match fixed {
        None => true,
        Some(fixed) => fixed.coded == comps,
    }
}

/// The integers of a point under components that may be fixed.
fn integers_under(fixed: Option<FixedComponents>, comps: u8) -> u8
    ensures { result ≡ integers_under fixed comps }
{
    match fixed {
        None => comps,
        Some(fixed) => fixed.integers,
    }
}

/// The bits of a square that stand at a decoder's end, 0 until they are read.
fn unread_bits(at_end: AtEnd) -> Option<u8>
    ensures { result ≡ unread_bits at_end }
{
    match at_end {
        AtEnd::Nothing => None,
        AtEnd::Quantisation => None,
        AtEnd::SquareBits => Some(0),
    }
}

/// The head of an attribute of this coding, from the head as it stands in a stream; what stands at the decoder's end isn't read yet:
/// a head has no quantisation, and 0 bits where it has a square.
pub fn coded_head(coding: Coding, head: &Head) -> Head
    ensures { result ≡ coded coding head.now }
{
    let facts = coding.facts();
    Head {
        usage: head.usage,
        dtype: head.dtype,
        comps: integers_under(facts.fixed, head.comps),
        normalized: head.normalized,
        id: head.id,
        quant: None,
        octa: unread_bits(facts.at_end),
    }
}

/// The components that a stream says for a head.
pub(crate) fn coded_comps(head: &Head) -> u8
    ensures { result ≡ coded_comps head.now }
{
    match Coding::of_head(head).facts().fixed {
        None => head.comps,
        Some(fixed) => fixed.coded,
    }
}
