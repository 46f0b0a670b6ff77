//! Reading the heads of attribute decoders.

ghost use Rattle.std.specs.Prelude.{◌≡◌, ◌≤◌, ◌<◌, ◌+◌, Err, IfOk, OnErr, All, length};
ghost use Rattle.drc_base.specs.declared.faults.Fault.{Fault as AnyFault};
ghost use Rattle.drc_base.specs.declared.faults.Refusal.TheVariants as refusal;
ghost use Rattle.drc_base.specs.Profile.{profile_numbered};
ghost use Rattle.drc_bits.specs.Reading.{Reads, Gives};
ghost use Rattle.attr_section.specs.Heads.{decoder_count_at, attribute_count_at, decoder_at, attributes_of, decoders_at, heads_at};
ghost use Rattle.attr_section.specs.Orders.{HasCoordinates};
ghost use Rattle.attr_section.specs.Openings.{first_count_at, heads_opening_at};

use crate::decoder_heads::DecoderHead;
use crate::head_items::{read_codings, read_plain_heads};
use crate::links::{Link, read_links};
use drc_base::{Fault, Kind, MAX_ATTRIBUTES, Profile, Refusal, Sequence};
use drc_bits::Cursor;
use std::alloc::Global;

/// The number of decoders.
#[tactic(auto, unfolding(crate::specs::Heads::decoder_count_at))]
fn read_decoder_count(c: &mut Cursor<'_>) -> Result<u8, Fault>
    ensures item { Reads (λ n. n) (decoder_count_at c.old) c.new result }
    ensures some { IfOk result (λ n. 0 < n) }
    ensures few { IfOk result (λ n. n ≤ 16) }
{
    let at = c.place();
    let n = c.get_u8()?;
    if n == 0 {
        return Err(Fault::new(Kind::NoAttribute, at));
    }
    if n as u32 > MAX_ATTRIBUTES {
        return Err(Fault::new(Kind::AttrLimit, at));
    }
    Ok(n)
}

/// How many attributes a decoder has, behind so many others.
fn read_attribute_count(c: &mut Cursor<'_>, before: u32) -> Result<u32, Fault>
    requires { before ≤ 16 }
    ensures item { Reads (λ n. n) (attribute_count_at before c.old) c.new result }
    ensures few { IfOk result (λ n. before + n ≤ 16) }
{
    let at = c.place();
    let n = c.var32()?;
    if n == 0 {
        return Err(Fault::new(Kind::NoAttribute, at));
    }
    if n > MAX_ATTRIBUTES - before {
        return Err(Fault::new(Kind::AttrLimit, at));
    }
    Ok(n)
}

/// How many attributes the first decoder of a sequential stream has; under Edgebreaker the links stand
/// before it, and nothing is read.
fn read_first_count(c: &mut Cursor<'_>, attr_data: Option<u8>) -> Result<u32, Fault>
    ensures { Reads (λ n. n) (first_count_at attr_data c.old) c.new result }
{
    match attr_data {
        None => read_attribute_count(c, 0),
        Some(_) => Ok(0),
    }
}

/// A decoder of this link, behind so many attributes.
#[tactic(auto, unfolding(crate::specs::Heads::decoder_at))]
fn read_decoder_head(
    alloc: Global,
    c: &mut Cursor<'_>,
    profile: Profile,
    before: u32,
    link: Link,
) -> Result<DecoderHead, Refusal>
    requires { before ≤ 16 }
    ensures item { Gives (λ d. d) (decoder_at (profile_numbered profile.number) before link c.old) c.new result }
    ensures few { IfOk result (λ d. before + length d.heads ≤ 16) }
    ensures some { IfOk result (λ d. All (λ h. 0 < h.comps) d.heads) }
    ensures squares { IfOk result (λ d. All HasCoordinates d.heads) }
{
    let n = read_attribute_count(c, before)?;
    let plain = read_plain_heads(alloc, c, n)?;
    let heads = read_codings(alloc, c, profile, &plain)?;
    Ok(DecoderHead {
        data_id: link.data_id,
        corner: link.corner,
        degree: link.degree,
        heads: Sequence::from_vec(heads),
    })
}

/// The decoders of these links.
fn read_linked_decoders(
    alloc: Global,
    c: &mut Cursor<'_>,
    profile: Profile,
    links: &[Link],
) -> Result<Vec<DecoderHead>, Refusal>
    ensures item { Gives (λ v. v.items) (decoders_at (profile_numbered profile.number) links.now c.old) c.new result }
    ensures few { IfOk result (λ v. attributes_of v.items ≤ MAX_ATTRIBUTES) }
    ensures some { IfOk result (λ v. All (λ d. All (λ h. 0 < h.comps) d.heads) v.items) }
    ensures squares { IfOk result (λ v. All (λ d. All HasCoordinates d.heads) v.items) }
{
    let mut attributes: u32 = 0;
    let mut decoders = Vec::new(alloc);
    for link in links {
        let decoder = read_decoder_head(alloc, c, profile, attributes, *link)?;
        attributes += decoder.heads.len() as u32;
        decoders.push(decoder)?;
    }
    Ok(decoders)
}

/// The heads of the attribute decoders of a stream in this profile; `attr_data` is the number of attribute data of
/// an Edgebreaker stream, and None stands for a sequential stream. The heads have no quantisation
/// yet, and 0 bits where they have a square. The first fault of the bytes: `Short` and `Long`; `NoAttribute` where there is no decoder,
/// or a decoder has no attribute; `AttrLimit` past 16 decoders or attributes; `DataId`, `Element`
/// and `Walk` at the links of Edgebreaker decoders, where the walk is 0 depth first, or 1 by prediction
/// degree with values of vertices alone; `AttrType`, `DataType` and `Components`; then
/// `Generic`, `Octahedral` and `Coding` at the codings of a decoder, the first two where the profile doesn't have them. The faults of the number of decoders,
/// and in a sequential stream of how many attributes the first one has, come before out of memory. After
/// a refusal the cursor is where it was.
#[tactic(auto, unfolding(crate::specs::Heads::heads_at, crate::specs::Openings::heads_opening_at), using(crate::proofs::FirstCounts::first_count_fails))]
pub fn read_heads(
    alloc: Global,
    c: &mut Cursor<'_>,
    profile: Profile,
    attr_data: Option<u8>,
) -> Result<Vec<DecoderHead>, Refusal>
    ensures item { Gives (λ v. v.items) (heads_at (profile_numbered profile.number) attr_data c.old) c.new result }
    ensures few { IfOk result (λ v. attributes_of v.items ≤ MAX_ATTRIBUTES) }
    ensures some { IfOk result (λ v. All (λ d. All (λ h. 0 < h.comps) d.heads) v.items) }
    ensures squares { IfOk result (λ v. All (λ d. All HasCoordinates d.heads) v.items) }
    ensures early { (f : AnyFault) → heads_opening_at attr_data c.old ≡ Err f → result ≡ Err (refusal.Fault f) }
    ensures unchanged { OnErr result (c.new ≡ c.old) }
{
    let mut ahead = c.copy();
    let n = read_decoder_count(&mut ahead)?;
    let mut first = ahead.copy();
    let _count = read_first_count(&mut first, attr_data)?;
    let links = read_links(alloc, &mut ahead, attr_data, n)?;
    let decoders = read_linked_decoders(alloc, &mut ahead, profile, &links)?;
    *c = ahead;
    Ok(decoders)
}
