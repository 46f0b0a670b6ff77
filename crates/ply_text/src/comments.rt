//! The comment lines that describe attributes.

ghost use Rattle.std.specs.Prelude.{◌≡◌, ◌≤◌, ◌<◌, length, option_map, IfOk, IfSome};
ghost use Rattle.ply_text.specs.Tokens.{tokens_of};
ghost use Rattle.ply_text.specs.Comments.{byte_of, head_of, attr_of, patterns_of, is_bare, fields_of, quant_of, is_octa, takes_square, square_of, octa_of};
ghost use Rattle.ply_text.specs.IsHeader.{HeadFits, QuantFits, FitsAt, SquareFits, FitsSquareAt};

use crate::bit_patterns::pattern_of;
use crate::integers::natural_within;
use crate::statements::is_form;
use crate::token_reader::TokenReader;
use attr_heads::{
    Head, OCTAHEDRAL_INTEGERS, OCTAHEDRAL_SINCE, Quant, are_octahedral_bits, are_quant_bits,
    has_comps, is_float, is_type, is_usage,
};
use drc_base::{Memory, Profile, Sequence};
use std::alloc::Global;

/// The byte that a token of digits alone writes.
fn byte_of(token: &[u8]) -> Option<u8>
    ensures { result ≡ byte_of token.now }
{
    let n = natural_within(token, u8::MAX as u64)?;
    Some(n as u8)
}

/// The attribute that the fields of its line give.
#[tactic(auto, unfolding(crate::specs::Comments::head_of))]
fn head_of(
    number: u64,
    k: &[u8],
    usage: &[u8],
    dtype: &[u8],
    comps: &[u8],
    normalized: &[u8],
    id: &[u8],
) -> Option<Head>
    ensures head { result ≡ head_of number k.now usage.now dtype.now comps.now normalized.now id.now }
    ensures fits { IfSome result HeadFits }
{
    let k = natural_within(k, 15)?;
    if k != number {
        return None;
    }
    let usage = byte_of(usage)?;
    if !is_usage(usage) {
        return None;
    }
    let dtype = byte_of(dtype)?;
    if !is_type(dtype) {
        return None;
    }
    let comps = byte_of(comps)?;
    if !has_comps(comps) {
        return None;
    }
    let normalized = byte_of(normalized)?;
    let id = natural_within(id, u32::MAX as u64)?;
    Some(Head {
        usage,
        dtype,
        comps,
        normalized,
        id: id as u32,
        quant: None,
        octa: None,
    })
}

/// The attribute that an `attr` line gives, if its number is `number`.
#[tactic(auto, unfolding(crate::specs::Comments::attr_of))]
pub(crate) fn attr_of(number: u64, line: &[u8]) -> Option<Head>
    ensures head { result ≡ attr_of number (tokens_of line.now) }
    ensures fits { IfSome result HeadFits }
{
    let mut tokens = TokenReader::new(line);
    let _word = tokens.next()?;
    let _drc = tokens.next()?;
    let _form = tokens.next()?;
    let k = tokens.next()?;
    let usage = tokens.next()?;
    let dtype = tokens.next()?;
    let comps = tokens.next()?;
    let normalized = tokens.next()?;
    let id = tokens.next()?;
    if tokens.next().is_some() {
        return None;
    }
    head_of(number, k, usage, dtype, comps, normalized, id)
}

/// The bit patterns of the tokens that are left, if each is one.
fn patterns_of(alloc: Global, tokens: &mut TokenReader<'_>) -> Result<Option<Vec<u32>>, Memory>
    ensures { IfOk result (λ found. option_map (λ patterns. patterns.items) found ≡ patterns_of tokens.old) }
{
    let mut patterns = Vec::new(alloc);
    while let Some(token) = tokens.next() {
        let Some(pattern) = pattern_of(token) else {
            return Ok(None);
        };
        patterns.push(pattern)?;
    }
    Ok(Some(patterns))
}

/// Whether no line says more of a head.
fn is_bare(head: &Head) -> bool
    ensures { result ≡ is_bare head.now }
{
    head.quant.is_none() && head.octa.is_none()
}

/// The quantisation of a head that is bare so far, if the fields of its line give one.
#[tactic(auto, unfolding(crate::specs::Comments::fields_of))]
fn fields_of(
    alloc: Global,
    head: &Head,
    bits: &[u8],
    range: &[u8],
    minima: &mut TokenReader<'_>,
) -> Result<Option<Quant>, Memory>
    ensures found { IfOk result (λ found. found ≡ fields_of head.now bits.now range.now minima.old) }
    ensures fits { IfOk result (λ found. IfSome found (QuantFits head.now.comps)) }
{
    let Some(bits) = byte_of(bits) else {
        return Ok(None);
    };
    if !are_quant_bits(bits) {
        return Ok(None);
    }
    let Some(range) = pattern_of(range) else {
        return Ok(None);
    };
    let Some(min) = patterns_of(alloc, minima)? else {
        return Ok(None);
    };
    if !is_bare(head) || min.len() != head.comps as usize {
        return Ok(None);
    }
    Ok(Some(Quant {
        bits,
        range,
        min: Sequence::from_vec(min),
    }))
}

/// The number of a head and the quantisation that a `quant` line gives to it.
#[tactic(auto, unfolding(crate::specs::Comments::quant_of))]
pub(crate) fn quant_of(
    alloc: Global,
    heads: &[Head],
    line: &[u8],
) -> Result<Option<(usize, Quant)>, Memory>
    ensures found { IfOk result (λ found. found ≡ quant_of heads.now (tokens_of line.now)) }
    ensures number { IfOk result (λ found. IfSome found (λ f. f.0 < length heads.now)) }
    ensures fits { IfOk result (λ found. IfSome found (λ f. FitsAt heads.now f.0 f.1)) }
{
    let mut tokens = TokenReader::new(line);
    let _word = tokens.next();
    let _drc = tokens.next();
    let _form = tokens.next();
    let Some(k) = tokens.next() else {
        return Ok(None);
    };
    let Some(bits) = tokens.next() else {
        return Ok(None);
    };
    let Some(range) = tokens.next() else {
        return Ok(None);
    };
    let Some(number) = natural_within(k, 15) else {
        return Ok(None);
    };
    let number = number as usize;
    if number >= heads.len() {
        return Ok(None);
    }
    match fields_of(alloc, &heads[number], bits, range, &mut tokens)? {
        None => Ok(None),
        Some(quant) => Ok(Some((number, quant))),
    }
}

/// Whether the line is a comment of a square, in a profile that has octahedral attributes.
pub(crate) fn is_octa(profile: Profile, line: &[u8]) -> bool
    ensures { result ≡ is_octa profile.number (tokens_of line.now) }
{
    profile.has(OCTAHEDRAL_SINCE) && is_form(b"octa", line)
}

/// Whether a head may be given a square.
fn takes_square(head: &Head) -> bool
    ensures { result ≡ takes_square head.now }
{
    is_bare(head) && is_float(head.dtype) && head.comps == OCTAHEDRAL_INTEGERS
}

/// The bits of the square of a head, if the field of its line gives them.
#[tactic(auto, unfolding(crate::specs::Comments::square_of))]
fn square_of(head: &Head, bits: &[u8]) -> Option<u8>
    ensures bits { result ≡ square_of head.now bits.now }
    ensures fits { IfSome result (SquareFits head.now.comps) }
{
    let bits = byte_of(bits)?;
    if !takes_square(head) || !are_octahedral_bits(bits) {
        return None;
    }
    Some(bits)
}

/// The number of a head and the bits of the square that an `octa` line gives to it.
#[tactic(auto, unfolding(crate::specs::Comments::octa_of))]
pub(crate) fn octa_of(heads: &[Head], line: &[u8]) -> Option<(usize, u8)>
    ensures found { result ≡ octa_of heads.now (tokens_of line.now) }
    ensures number { IfSome result (λ f. f.0 < length heads.now) }
    ensures fits { IfSome result (λ f. FitsSquareAt heads.now f.0 f.1) }
{
    let mut tokens = TokenReader::new(line);
    let _word = tokens.next()?;
    let _drc = tokens.next()?;
    let _form = tokens.next()?;
    let k = tokens.next()?;
    let bits = tokens.next()?;
    if tokens.next().is_some() {
        return None;
    }
    let number = natural_within(k, 15)? as usize;
    if number >= heads.len() {
        return None;
    }
    let bits = square_of(&heads[number], bits)?;
    Some((number, bits))
}
