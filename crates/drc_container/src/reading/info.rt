//! What is known of a stream beside its geometry: how it is coded and where its parts stand.

ghost use Rattle.std.specs.Prelude.{◌≡◌, IfOk, if◌then◌else◌};
ghost use Rattle.drc_container.specs.reading.Meaning.{attr_infos, stream_info, sequential_info};
ghost use Rattle.drc_container.specs.declared.choice.methods.Method.TheVariants as method;

use crate::choice::methods::Method;
use crate::reading::attributes::Attributes;
use attr_heads::Head;
use attr_section::Values;
use drc_base::{Memory, Sequence};
use drc_bits::Cursor;
use eb_rebuild::Built;
use mesh_model::Geometry;
use std::alloc::Global;

/// What is known of an attribute beside its values.
#[derive(Debug, Drop)]
pub struct AttrInfo {
    /// What the attribute is.
    pub head: Head,
    /// How its values are predicted: -2 not at all, 0 by the difference to the entry before, 1 by a
    /// parallelogram, 4 by the mean of several.
    pub predict: i8,
    /// How many entries it has.
    pub entries: u32,
    /// The place of its prediction byte.
    pub at: u64,
}

/// What is known of a stream beside its geometry: how its connectivity is coded and where it stands, its
/// attributes, and its end. Places and lengths are in bytes.
#[derive(Debug, Drop)]
pub struct StreamInfo {
    /// How its connectivity is coded.
    pub method: Method,
    /// The place of its connectivity, which begins where the header ends, and its length up to the
    /// number of decoders.
    pub connectivity: (u64, u64),
    /// The declared number of symbols, 0 in a sequential stream.
    pub symbols: u32,
    /// The declared number of splits, 0 in a sequential stream.
    pub splits: u32,
    /// The declared number of split events, 0 in a sequential stream.
    pub events: u32,
    /// Its attributes.
    pub attrs: Sequence<AttrInfo>,
    /// The place of its end.
    pub end: u64,
    /// How many bytes follow its end.
    pub rest: u64,
}

/// How a stream's connectivity is coded, and what it declares.
#[derive(Clone, Copy, Debug, PartialEq, Eq)]
pub struct ConnectivityInfo {
    /// How it is coded.
    pub method: Method,
    /// The declared number of symbols, 0 in a sequential stream.
    pub symbols: u32,
    /// The declared number of splits, 0 in a sequential stream.
    pub splits: u32,
    /// The declared number of split events, 0 in a sequential stream.
    pub events: u32,
}

/// What a stream means: its geometry, the surface of an Edgebreaker mesh, and what is known of it.
#[derive(Debug, Drop)]
pub struct Decoded {
    /// The geometry.
    pub geometry: Geometry,
    /// How the sides of an Edgebreaker mesh's faces are glued, its faces in the order of decoding; None in
    /// any other stream.
    pub sides: Option<Built>,
    /// What is known of the stream beside it.
    pub info: StreamInfo,
}

/// What is known of a stream whose connectivity stands between the places `from` and `to`, and which ends at the
/// cursor.
pub fn stream_info(
    end: &Cursor<'_>,
    from: u64,
    to: u64,
    connectivity: ConnectivityInfo,
    attrs: Sequence<AttrInfo>,
) -> StreamInfo
    ensures { result ≡ stream_info from to connectivity attrs end.now }
{
    StreamInfo {
        method: connectivity.method,
        connectivity: (from, to.saturating_sub(from)),
        symbols: connectivity.symbols,
        splits: connectivity.splits,
        events: connectivity.events,
        attrs,
        end: end.place(),
        rest: end.rest().len() as u64,
    }
}

/// What is known of a sequential stream with these attributes, whose connectivity stands between the places
/// `from` and `to`, and which ends at the cursor.
pub fn sequential_info(
    alloc: Global,
    end: &Cursor<'_>,
    from: u64,
    to: u64,
    entries: u32,
    attributes: &Attributes,
) -> Result<StreamInfo, Memory>
    ensures { IfOk result (λ s. s ≡ sequential_info from to entries attributes.now end.now) }
{
    let heads = attributes.heads.as_slice();
    let attrs = attr_infos(alloc, entries, heads, attributes.values.as_slice())?;
    let connectivity = ConnectivityInfo {
        method: Method::Seq,
        symbols: 0,
        splits: 0,
        events: 0,
    };
    Ok(stream_info(end, from, to, connectivity, Sequence::from_vec(attrs)))
}

/// What is known of attributes with these heads and values, which have so many entries.
pub fn attr_infos(
    alloc: Global,
    entries: u32,
    heads: &[Head],
    values: &[Values],
) -> Result<Vec<AttrInfo>, Memory>
    ensures { IfOk result (λ v. v.items ≡ attr_infos entries heads.now values.now) }
{
    let mut info = Vec::new(alloc);
    for k in 0..heads.len().min(values.len()) {
        info.push(AttrInfo {
            head: heads[k].copy(alloc)?,
            predict: values[k].predict,
            entries,
            at: values[k].at,
        })?;
    }
    Ok(info)
}

/// The method of Edgebreaker: by valence, or standard.
pub fn method_read(valence: bool) -> Method
    ensures { result ≡ (if valence then method.Valence else method.Eb) }
{
    if valence { Method::Valence } else { Method::Eb }
}
