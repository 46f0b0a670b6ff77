//! Writing the heads of attribute decoders.

ghost use Rattle.std.specs.Prelude.{◌≡◌, ◌≤◌, ◌++◌, Option, ℕ, OnOk, All, flat_map, map, is_some, length};
ghost use Rattle.drc_base.specs.Profile.{profile_numbered};
ghost use Rattle.drc_bits.specs.Reading.{many_at};
ghost use Rattle.drc_bits.specs.Spells.{Spells};
ghost use Rattle.attr_heads.specs.HeadItems.{head_at};
ghost use Rattle.attr_heads.specs.Codings.{coding_byte};
ghost use Rattle.attr_heads.specs.HeadItems.{head_bytes, stream_head, HeadPasses};
ghost use Rattle.attr_section.specs.Heads.{id_byte, decoder_at, heads_at, link_bytes, decoder_bytes, links_bytes, heads_bytes, bare_decoder, link_of, DecoderPasses, DecodersPass, DecoderSpelled, AreAcceptedLinks, HaveCodings};

use crate::decoder_heads::DecoderHead;
use crate::head_items::coding_byte;
use attr_heads::{Head, put_bare_head};
use drc_base::Memory;
use drc_bits::put_var32;

/// Appends the bytes of heads.
fn put_heads(out: &mut Vec<u8>, heads: &[Head]) -> Result<(), Memory>
    requires { All HeadPasses heads.now }
    ensures bytes { OnOk result (out.new.items ≡ out.old.items ++ flat_map head_bytes heads.now) }
    ensures again { OnOk result (All (λ h. Spells head_at (head_bytes h) (stream_head h)) heads.now) }
{
    for head in heads {
        put_bare_head(out, head)?;
    }
    Ok(())
}

/// Appends the codings of heads.
fn put_codings(out: &mut Vec<u8>, heads: &[Head]) -> Result<(), Memory>
    ensures { OnOk result (out.new.items ≡ out.old.items ++ map coding_byte heads.now) }
{
    for head in heads {
        out.push(coding_byte(head))?;
    }
    Ok(())
}

/// Appends the bytes of a decoder's heads.
fn put_decoder(out: &mut Vec<u8>, decoder: &DecoderHead) -> Result<(), Memory>
    requires passes { DecoderPasses decoder.now }
    requires few { length decoder.now.heads ≤ 16 }
    ensures bytes { OnOk result (out.new.items ≡ out.old.items ++ decoder_bytes decoder.now) }
    ensures again { OnOk result (DecoderSpelled decoder.now) }
{
    let heads = decoder.heads.as_slice();
    out.extend_from_slice(&put_var32(heads.len() as u32))?;
    put_heads(out, heads)?;
    put_codings(out, heads)?;
    Ok(())
}

/// The byte of a data id.
fn id_byte(data_id: Option<u8>) -> u8
    ensures { result ≡ id_byte data_id }
{
    match data_id {
        None => 0,
        Some(id) => id,
    }
}

/// Appends the bytes of a link.
fn put_link(out: &mut Vec<u8>, decoder: &DecoderHead) -> Result<(), Memory>
    ensures { OnOk result (out.new.items ≡ out.old.items ++ link_bytes decoder.now) }
{
    let corner = if decoder.corner { 1 } else { 0 };
    let degree = if decoder.degree { 1 } else { 0 };
    out.extend_from_slice(&[id_byte(decoder.data_id), corner, degree])?;
    Ok(())
}

/// Appends the bytes of links.
fn put_links(out: &mut Vec<u8>, decoders: &[DecoderHead]) -> Result<(), Memory>
    ensures { OnOk result (out.new.items ≡ out.old.items ++ flat_map link_bytes decoders.now) }
{
    for decoder in decoders {
        put_link(out, decoder)?;
    }
    Ok(())
}

/// Appends the bytes of the heads of decoders.
fn put_decoders(out: &mut Vec<u8>, decoders: &[DecoderHead]) -> Result<(), Memory>
    requires { DecodersPass decoders.now }
    ensures bytes { OnOk result (out.new.items ≡ out.old.items ++ flat_map decoder_bytes decoders.now) }
    ensures again { OnOk result (All DecoderSpelled decoders.now) }
{
    for decoder in decoders {
        put_decoder(out, decoder)?;
    }
    Ok(())
}

/// Appends the heads of the decoders `d`, with their links under Edgebreaker. They are read back, whatever
/// follows them, without what stands at the end of the decoders, in each profile that has their codings, where the
/// links are those of a sequential stream, or are accepted beside the number of attribute data. An answer of `Memory`
/// leaves the bytes open.
#[tactic(auto, unfolding(crate::specs::Heads::heads_bytes))]
pub fn write_heads(out: &mut Vec<u8>, d: &[DecoderHead], eb: bool) -> Result<(), Memory>
    requires { DecodersPass d.now }
    ensures bytes { OnOk result (out.new.items ≡ out.old.items ++ heads_bytes eb d.now) }
    ensures again { OnOk result ((n : ℕ) (attr_data : Option ℕ) → HaveCodings n d.now → is_some attr_data ≡ eb → AreAcceptedLinks attr_data d.now → Spells (heads_at (profile_numbered n) attr_data) (heads_bytes eb d.now) (map bare_decoder d.now)) }
{
    out.push(d.len() as u8)?;
    if eb {
        put_links(out, d)?;
    }
    put_decoders(out, d)?;
    Ok(())
}
