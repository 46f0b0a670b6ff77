//! How decoders of attributes are linked to the connectivity.

ghost use Rattle.std.specs.Prelude.{◌≡◌, IfOk, replicate};
ghost use Rattle.drc_bits.specs.Reading.{Reads, Gives};
ghost use Rattle.attr_section.specs.Heads.{is_id, is_known_id, is_used_id, no_link, link_at, linked_at, links_at};

use drc_base::{Fault, Kind, Refusal};
use drc_bits::Cursor;
use std::alloc::{AllocError, Global};

/// The data id of the connectivity of the positions (Draco Bitstream Specification 2.2, section "Attributes Decoder").
pub const POSITION_ID: u8 = 255;

/// How a decoder is linked to the connectivity.
#[derive(Clone, Copy, Debug)]
pub struct Link {
    /// 255 the connectivity of the positions, else the number of an attribute data; None in a
    /// sequential stream.
    pub data_id: Option<u8>,
    /// Whether values belong to corners, and not to vertices.
    pub corner: bool,
    /// Whether entries are ordered by prediction degree, and not depth first.
    pub degree: bool,
}

fn is_id(id: u8, data_id: Option<u8>) -> bool
    ensures { result ≡ is_id id data_id }
{
    match data_id {
        None => false,
        Some(n) => n == id,
    }
}

/// Whether this is the positions' or the number of an attribute data.
fn is_known_id(attr_data: u8, id: u8) -> bool
    ensures { result ≡ is_known_id attr_data id }
{
    id == POSITION_ID || id < attr_data
}

/// Whether a link before has this data id.
fn is_used_id(before: &[Link], id: u8) -> bool
    ensures { result ≡ is_used_id before.now id }
{
    before.iter().any(|l| is_id(id, l.data_id))
}

/// The link behind those before: the data id, the element type and the walk. Entries of corners are
/// ordered depth first alone.
#[tactic(auto, unfolding(crate::specs::Heads::link_at))]
fn read_link(c: &mut Cursor<'_>, attr_data: u8, before: &[Link]) -> Result<Link, Fault>
    ensures { Reads (λ l. l) (link_at attr_data before.now c.old) c.new result }
{
    let at = c.place();
    let id = c.get_u8()?;
    if !is_known_id(attr_data, id) || is_used_id(before, id) {
        return Err(Fault::new(Kind::DataId, at));
    }
    let at = c.place();
    let element = c.get_u8()?;
    let most = if id == POSITION_ID { 0 } else { 1 };
    if element > most {
        return Err(Fault::new(Kind::Element, at));
    }
    let at = c.place();
    let walk = c.get_u8()?;
    let most = if element == 0 { 1 } else { 0 };
    if walk > most {
        return Err(Fault::new(Kind::Walk, at));
    }
    Ok(Link {
        data_id: Some(id),
        corner: element == 1,
        degree: walk == 1,
    })
}

/// The links of `n` decoders beside so many attribute data.
fn read_linked(
    alloc: Global,
    c: &mut Cursor<'_>,
    attr_data: u8,
    n: u8,
) -> Result<Vec<Link>, Refusal>
    ensures { Gives (λ v. v.items) (linked_at attr_data n c.old) c.new result }
{
    let mut links = Vec::new(alloc);
    for _number in 0..n {
        let link = read_link(c, attr_data, &links)?;
        links.push(link)?;
    }
    Ok(links)
}

/// So many links to nothing.
fn no_links(alloc: Global, n: u8) -> Result<Vec<Link>, AllocError>
    ensures { IfOk result (λ v. v.items ≡ replicate n no_link) }
{
    vec![in alloc; Link {
        data_id: None,
        corner: false,
        degree: false
    }; n as usize]
}

/// The links of `n` decoders; under Edgebreaker, beside so many attribute data, they are read.
#[tactic(auto, unfolding(crate::specs::Heads::links_at))]
pub fn read_links(
    alloc: Global,
    c: &mut Cursor<'_>,
    attr_data: Option<u8>,
    n: u8,
) -> Result<Vec<Link>, Refusal>
    ensures { Gives (λ v. v.items) (links_at attr_data n c.old) c.new result }
{
    match attr_data {
        None => Ok(no_links(alloc, n)?),
        Some(attr_data) => read_linked(alloc, c, attr_data, n),
    }
}
