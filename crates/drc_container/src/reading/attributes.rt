//! The attributes of a stream.

ghost use Rattle.drc_base.specs.Profile.{profile_numbered};
ghost use Rattle.std.specs.Prelude.{◌≡◌, ◌<◌, [], None, Err, IfOk, All};
ghost use Rattle.drc_base.specs.declared.faults.Fault.{Fault as AnyFault};
ghost use Rattle.drc_base.specs.declared.faults.Refusal.TheVariants as refusal;
ghost use Rattle.drc_bits.specs.Reading.{Gives};
ghost use Rattle.attr_section.specs.Orders.{HasCoordinates};
ghost use Rattle.attr_section.specs.Openings.{heads_opening_at};
ghost use Rattle.attr_section.specs.Attributes.{AreColumns};
ghost use Rattle.drc_container.specs.reading.Stream.{sequential_attributes_at, decoders_values_at};

use attr_heads::Head;
use attr_section::{DecoderHead, ReadPositions, Values, read_decoder, read_heads};
use drc_base::{Profile, Refusal, Sequence};
use drc_bits::Cursor;
use std::alloc::Global;

/// The attributes of a stream: their heads, and the values of each.
#[derive(Debug, Drop)]
pub struct Attributes {
    /// What each attribute is.
    pub heads: Sequence<Head>,
    /// The values of each attribute.
    pub values: Sequence<Values>,
}

/// Reads all attributes of a sequential stream with so many entries: the heads of its decoders, then
/// the values of each decoder in turn. The first fault of the bytes, at its place; that of the numbers of
/// decoders and of the first one's attributes comes before out of memory.
#[tactic(auto, unfolding(crate::specs::reading::Stream::sequential_attributes_at))]
pub fn read_attributes(
    alloc: Global,
    c: &mut Cursor<'_>,
    profile: Profile,
    entries: u32,
) -> Result<Attributes, Refusal>
    ensures attributes { Gives (λ a. a) (sequential_attributes_at (profile_numbered profile.number) entries c.old) c.new result }
    ensures early { (f : AnyFault) → heads_opening_at None c.old ≡ Err f → result ≡ Err (refusal.Fault f) }
    ensures columns { IfOk result (λ a. AreColumns entries a.heads a.values) }
{
    let decoders = read_heads(alloc, c, profile, None)?;
    read_decoders(alloc, c, profile, entries, decoders)
}

/// Reads the values of these decoders in turn.
fn read_decoders(
    alloc: Global,
    c: &mut Cursor<'_>,
    profile: Profile,
    entries: u32,
    decoders: Vec<DecoderHead>,
) -> Result<Attributes, Refusal>
    requires some { All (λ d. All (λ h. 0 < h.comps) d.heads) decoders.items }
    requires squares { All (λ d. All HasCoordinates d.heads) decoders.items }
    ensures attributes { Gives (λ a. a) (decoders_values_at (profile_numbered profile.number) entries (record { heads = []; values = [] }) decoders.items c.old) c.new result }
    ensures columns { IfOk result (λ a. AreColumns entries a.heads a.values) }
{
    let mut heads = Vec::new(alloc);
    let mut values = Vec::new(alloc);
    let mut spent: u64 = 0;
    for mut decoder in decoders {
        let found = ReadPositions::NotYet;
        let mut read = read_decoder(
            alloc,
            c,
            profile,
            &mut decoder,
            entries,
            None,
            found,
            &mut spent,
        )?;
        values.append(&mut read)?;
        let mut its_heads = heads_of(decoder);
        heads.append(&mut its_heads)?;
    }
    Ok(Attributes {
        heads: Sequence::from_vec(heads),
        values: Sequence::from_vec(values),
    })
}

/// The heads of a decoder.
pub fn heads_of(decoder: DecoderHead) -> Vec<Head>
    ensures { result.items ≡ decoder.heads }
{
    let DecoderHead {
        data_id: _,
        corner: _,
        degree: _,
        heads,
    } = decoder;
    heads.into_vec()
}
