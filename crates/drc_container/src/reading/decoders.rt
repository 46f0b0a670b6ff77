//! The attributes of an Edgebreaker mesh, decoder after decoder.

ghost use Rattle.drc_base.specs.Profile.{profile_numbered};
ghost use Rattle.std.specs.Prelude.{◌≡◌, ◌<◌, ◌≤◌, ◌+◌, ◌*◌, ◌^◌, ◌++◌, ◌∷◌, [], ℕ, List, None, map, true, IfOk, IfSome, OnOk, All, length, Some};
ghost use Rattle.drc_base.specs.declared.limits.TheConstants.{MAX_VALUES as most_values, MAX_FACES as most_faces};
ghost use Rattle.drc_bits.specs.Reading.{Gives};
ghost use Rattle.corner_table.specs.Table.{gluing_of};
ghost use Rattle.corner_table.specs.Labels.{IsLabelled};
ghost use Rattle.mesh_model.specs.Assembled.{AreAttrTables, AreTables};
ghost use Rattle.attr_heads.specs.HeadItems.{HeadPasses};
ghost use Rattle.walk_order.specs.Orders.{IsOrderOver};
ghost use Rattle.corner_table.specs.Ordered.{ordered, IsOrdered};
ghost use Rattle.eb_section.specs.Connectivity.{meaning};
ghost use Rattle.attr_section.specs.Orders.{HasCoordinates};
ghost use Rattle.attr_section.specs.TablePositions.{read_in};
ghost use Rattle.drc_container.specs.reading.OnSurface.{HasSeams, cut_at, seams_of, ordered_by, ordered_for, decoder_on, surface_decoders_at, no_attributes, values_on, attributes_on};
ghost use Rattle.drc_container.specs.surface.MadeOrders.{IsOrderBy, AreOrders};
ghost use Rattle.drc_container.specs.surface.CutSurfaces.{IsCutFrom};
ghost use Rattle.drc_container.specs.reading.AsRead.{classes_of, built_classes, group_over, attributes_over, group_on, decoder_read_on, tables_on, attributes_read_on};
ghost use Rattle.mesh_model.specs.Groups.{tables_of, HasVertices};

use crate::reading::ahead::Ahead;
use crate::reading::edgebreaker::classes_lent;
use crate::reading::info::AttrInfo;
use crate::reading::positions::positions_among;
use crate::reading::surface_attributes::{
    AttributesRead, DecoderRead, DecoderValues, add_values, decoder_attributes, with_classes,
};
use crate::surface::cut_surfaces::{CutSurface, cut_once, kept_again};
use crate::surface::made_orders::{MadeOrders, order_once};
use attr_heads::Head;
use attr_section::{DecoderHead, Ordered, ReadPositions, read_decoder, read_heads};
use corner_table::{Classes, Order, SideTable};
use drc_base::{Memory, Profile, Refusal, Sequence};
use drc_bits::Cursor;
use eb_rebuild::Built;
use eb_section::EbRead;
use rans_binary::BitBlock;
use std::alloc::Global;

/// Reads the attributes of a decoder, whose values stand on a table's surface with these classes, in this order;
/// `spent` grows by the number of its values.
#[tactic(auto, unfolding(crate::specs::reading::OnSurface::decoder_on))]
fn read_in_order(
    alloc: Global,
    c: &mut Cursor<'_>,
    profile: Profile,
    t: &SideTable,
    labels: &Classes,
    order: &Order,
    found: ReadPositions<'_>,
    decoder: DecoderHead,
    spent: &mut u64,
) -> Result<DecoderRead, Refusal>
    requires order { IsOrderBy t.now labels.now.of_corner decoder.degree order.now }
    requires heads { All HeadPasses decoder.heads }
    requires squares { All HasCoordinates decoder.heads }
    requires spent { spent.old ≤ most_values }
    ensures item { Gives (attributes_over labels.now.of_corner) (decoder_on (profile_numbered profile.number) (ordered_by decoder.degree t.now.faces (gluing_of t.now)) (read_in found.entry) decoder spent.old c.old) c.new result }
    ensures spent { IfOk result (λ p. spent.new ≡ spent.old + values_on (tables_of (group_over labels.now.of_corner p.values))) }
    ensures few { IfOk result (λ _. spent.new ≤ most_values) }
    ensures columns { IfOk result (λ p. AreAttrTables (3 * t.now.faces) p.heads (tables_of (group_over labels.now.of_corner p.values))) }
    ensures vertices { IfOk result (λ p. HasVertices (3 * t.now.faces) (group_over labels.now.of_corner p.values)) }
    ensures whole { IfOk result (λ p. p.values.cut ≡ None) }
{
    let entries = order.corner_of_entry.len() as u32;
    let on = Ordered {
        sides: t,
        classes: labels,
        order,
    };
    let mut decoder = decoder;
    let values = read_decoder(
        alloc,
        c,
        profile,
        &mut decoder,
        entries,
        Some(&on),
        found,
        spent,
    )?;
    let attributes = decoder_attributes(alloc, order, decoder, values)?;
    Ok(attributes)
}

/// Reads the attributes of a decoder, whose values stand on a table's surface with these classes, of which these orders were made;
/// `spent` grows by the number of its values. The order is kept where a later decoder may stand in it again.
fn read_on_table(
    alloc: Global,
    c: &mut Cursor<'_>,
    profile: Profile,
    t: &SideTable,
    labels: &Classes,
    orders: &mut MadeOrders,
    again: bool,
    found: ReadPositions<'_>,
    decoder: DecoderHead,
    spent: &mut u64,
) -> Result<DecoderRead, Refusal>
    requires labels { IsLabelled t.now.faces (gluing_of t.now) labels.now.of_corner labels.now.count labels.now.ends }
    requires orders { AreOrders t.now labels.now.of_corner orders.old }
    requires heads { All HeadPasses decoder.heads }
    requires squares { All HasCoordinates decoder.heads }
    requires spent { spent.old ≤ most_values }
    ensures item { Gives (attributes_over labels.now.of_corner) (decoder_on (profile_numbered profile.number) (ordered_by decoder.degree t.now.faces (gluing_of t.now)) (read_in found.entry) decoder spent.old c.old) c.new result }
    ensures spent { IfOk result (λ p. spent.new ≡ spent.old + values_on (tables_of (group_over labels.now.of_corner p.values))) }
    ensures few { IfOk result (λ _. spent.new ≤ most_values) }
    ensures columns { IfOk result (λ p. AreAttrTables (3 * t.now.faces) p.heads (tables_of (group_over labels.now.of_corner p.values))) }
    ensures vertices { IfOk result (λ p. HasVertices (3 * t.now.faces) (group_over labels.now.of_corner p.values)) }
    ensures whole { IfOk result (λ p. p.values.cut ≡ None) }
    ensures orders { IfOk result (λ _. AreOrders t.now labels.now.of_corner orders.new) }
{
    let degree = decoder.degree;
    let order = order_once(alloc, t, labels, degree, orders)?;
    let read = read_in_order(alloc, c, profile, t, labels, &order, found, decoder, spent)?;
    if again {
        orders.keep(degree, order);
    }
    Ok(read)
}

/// The block of the seam bits of an attribute data.
fn seams_of<'a>(blocks: &[BitBlock<'a>], id: u8) -> BitBlock<'a>
    requires { id < length blocks.now }
    ensures { result ≡ seams_of blocks.now (Some id) }
{
    blocks[id as usize].copy()
}

/// Reads the attributes of a decoder that stand on the stream's surface cut at the seams of a block; `kept` is the surface that
/// was cut last, and then this one, where a later decoder may stand on it again.
fn read_on_cut(
    alloc: Global,
    c: &mut Cursor<'_>,
    profile: Profile,
    t: &SideTable,
    block: BitBlock<'_>,
    kept: &mut Option<CutSurface>,
    again: bool,
    found: ReadPositions<'_>,
    decoder: DecoderHead,
    spent: &mut u64,
) -> Result<DecoderRead, Refusal>
    requires kept { IfSome kept.old (IsCutFrom t.now) }
    requires heads { All HeadPasses decoder.heads }
    requires squares { All HasCoordinates decoder.heads }
    requires spent { spent.old ≤ most_values }
    ensures item { (whole : List ℕ) → Gives (decoder_read_on whole) (decoder_on (profile_numbered profile.number) (ordered_by decoder.degree t.now.faces (cut_at t.now.faces (gluing_of t.now) block.entry)) (read_in found.entry) decoder spent.old c.old) c.new result }
    ensures spent { IfOk result (λ p. (whole : List ℕ) → spent.new ≡ spent.old + values_on (tables_of (group_on whole p.values))) }
    ensures few { IfOk result (λ _. spent.new ≤ most_values) }
    ensures columns { IfOk result (λ p. (whole : List ℕ) → AreAttrTables (3 * t.now.faces) p.heads (tables_of (group_on whole p.values))) }
    ensures vertices { IfOk result (λ p. (whole : List ℕ) → HasVertices (3 * t.now.faces) (group_on whole p.values)) }
    ensures kept { IfOk result (λ _. IfSome kept.new (IsCutFrom t.now)) }
{
    let mut cut = cut_once(alloc, t, block, kept)?;
    let alone = read_on_table(
        alloc,
        c,
        profile,
        &cut.sides,
        cut.classes.as_ref(),
        &mut cut.orders,
        again,
        found,
        decoder,
        spent,
    )?;
    let read = with_classes(alone, &cut.classes)?;
    *kept = kept_again(again, cut);
    Ok(read)
}

/// Reads the attributes of a decoder that stand on the stream's surface as it is, of which these orders were made.
fn read_on_whole_surface(
    alloc: Global,
    c: &mut Cursor<'_>,
    profile: Profile,
    sides: &Built,
    orders: &mut MadeOrders,
    again: bool,
    found: ReadPositions<'_>,
    decoder: DecoderHead,
    spent: &mut u64,
) -> Result<DecoderRead, Refusal>
    requires heads { All HeadPasses decoder.heads }
    requires squares { All HasCoordinates decoder.heads }
    requires spent { spent.old ≤ most_values }
    requires orders { AreOrders sides.now.table (built_classes sides.now) orders.old }
    ensures item { Gives (decoder_read_on (built_classes sides.now)) (decoder_on (profile_numbered profile.number) (ordered_by decoder.degree sides.now.table.faces (gluing_of sides.now.table)) (read_in found.entry) decoder spent.old c.old) c.new result }
    ensures spent { IfOk result (λ p. spent.new ≡ spent.old + values_on (tables_of (group_on (built_classes sides.now) p.values))) }
    ensures few { IfOk result (λ _. spent.new ≤ most_values) }
    ensures columns { IfOk result (λ p. AreAttrTables (3 * sides.now.table.faces) p.heads (tables_of (group_on (built_classes sides.now) p.values))) }
    ensures vertices { IfOk result (λ p. HasVertices (3 * sides.now.table.faces) (group_on (built_classes sides.now) p.values)) }
    ensures orders { IfOk result (λ _. AreOrders sides.now.table (built_classes sides.now) orders.new) }
{
    let table = sides.table();
    // For the prover alone: the call states that the table is a surface.
    let _faces = table.face_count();
    let labels = sides.classes();
    read_on_table(
        alloc, c, profile, table, labels, orders, again, found, decoder, spent,
    )
}

/// Reads the attributes of a decoder, on the surface of the stream, of which these orders were made, cut at the seams of the
/// decoder's attribute data where values belong to corners; `kept` is the surface that was cut last. What was made of the surface is kept
/// where a later decoder may stand on it again.
fn read_on_its_surface(
    alloc: Global,
    c: &mut Cursor<'_>,
    profile: Profile,
    surface: &EbRead<'_>,
    orders: &mut MadeOrders,
    kept: &mut Option<CutSurface>,
    again: bool,
    found: ReadPositions<'_>,
    decoder: DecoderHead,
    spent: &mut u64,
) -> Result<DecoderRead, Refusal>
    requires orders { AreOrders surface.now.sides.table (built_classes surface.now.sides) orders.old }
    requires kept { IfSome kept.old (IsCutFrom surface.now.sides.table) }
    requires heads { All HeadPasses decoder.heads }
    requires squares { All HasCoordinates decoder.heads }
    requires seams { decoder.corner ≡ true → HasSeams (length surface.now.seams) decoder }
    requires spent { spent.old ≤ most_values }
    ensures item { Gives (decoder_read_on (classes_of (meaning surface.now))) (decoder_on (profile_numbered profile.number) (ordered_for (meaning surface.now) decoder) (read_in found.entry) decoder spent.old c.old) c.new result }
    ensures spent { IfOk result (λ p. spent.new ≡ spent.old + values_on (tables_of (group_on (classes_of (meaning surface.now)) p.values))) }
    ensures few { IfOk result (λ _. spent.new ≤ most_values) }
    ensures columns { IfOk result (λ p. AreAttrTables (3 * surface.now.sides.table.faces) p.heads (tables_of (group_on (classes_of (meaning surface.now)) p.values))) }
    ensures vertices { IfOk result (λ p. HasVertices (3 * surface.now.sides.table.faces) (group_on (classes_of (meaning surface.now)) p.values)) }
    ensures orders { IfOk result (λ _. AreOrders surface.now.sides.table (built_classes surface.now.sides) orders.new) }
    ensures kept { IfOk result (λ _. IfSome kept.new (IsCutFrom surface.now.sides.table)) }
{
    if decoder.corner
        && let Some(id) = decoder.data_id
    {
        let block = seams_of(surface.seams.as_slice(), id);
        let table = surface.sides.table();
        return read_on_cut(
            alloc, c, profile, table, block, kept, again, found, decoder, spent,
        );
    }
    read_on_whole_surface(
        alloc,
        c,
        profile,
        &surface.sides,
        orders,
        again,
        found,
        decoder,
        spent,
    )
}

/// Adds the attributes of a decoder, as they were read, behind those of the decoders before.
fn add_read(
    heads: &mut Vec<Head>,
    values: &mut Vec<DecoderValues>,
    info: &mut Vec<AttrInfo>,
    read: DecoderRead,
) -> Result<(), Memory>
    ensures heads { OnOk result (heads.new.items ≡ heads.old.items ++ read.heads) }
    ensures tables { OnOk result ((whole : List ℕ) → tables_on whole values.new.items ≡ tables_on whole values.old.items ++ tables_of (group_on whole read.values)) }
    ensures vertices { OnOk result ((whole : List ℕ) (corners : ℕ) → All (HasVertices corners) (map (group_on whole) values.old.items)
        → HasVertices corners (group_on whole read.values) → All (HasVertices corners) (map (group_on whole) values.new.items)) }
    ensures info { OnOk result (info.new.items ≡ info.old.items ++ read.info) }
{
    heads.append(&mut read.heads.into_vec())?;
    add_values(values, read.values)?;
    info.append(&mut read.info.into_vec())?;
    Ok(())
}

/// Reads the attributes of these decoders in turn.
fn read_each(
    alloc: Global,
    c: &mut Cursor<'_>,
    profile: Profile,
    surface: &EbRead<'_>,
    decoders: Vec<DecoderHead>,
) -> Result<AttributesRead, Refusal>
    requires heads { All (λ d. All HeadPasses d.heads) decoders.items }
    requires squares { All (λ d. All HasCoordinates d.heads) decoders.items }
    requires seams { All (λ d. d.corner ≡ true → HasSeams (length surface.now.seams) d) decoders.items }
    ensures item { Gives (attributes_read_on (classes_of (meaning surface.now))) (surface_decoders_at (profile_numbered profile.number) (meaning surface.now) no_attributes decoders.items c.old) c.new result }
    ensures columns { IfOk result (λ p. AreAttrTables (3 * surface.now.sides.table.faces) p.heads (tables_on (classes_of (meaning surface.now)) p.decoders)) }
    ensures vertices { IfOk result (λ p. All (HasVertices (3 * surface.now.sides.table.faces)) (map (group_on (classes_of (meaning surface.now))) p.decoders)) }
{
    let mut heads = Vec::new(alloc);
    let mut values = Vec::new(alloc);
    let mut info = Vec::new(alloc);
    let mut spent: u64 = 0;
    let mut orders = MadeOrders::none();
    let mut kept: Option<CutSurface> = None;
    let whole = classes_lent(&surface.sides);
    let mut ahead = Ahead::of(&decoders);
    for decoder in decoders {
        let again = ahead.pass(&decoder);
        let read = read_on_its_surface(
            alloc,
            c,
            profile,
            surface,
            &mut orders,
            &mut kept,
            again,
            positions_among(whole, heads.as_slice(), values.as_slice()),
            decoder,
            &mut spent,
        )?;
        add_read(&mut heads, &mut values, &mut info, read)?;
    }
    Ok(AttributesRead {
        heads: Sequence::from_vec(heads),
        decoders: Sequence::from_vec(values),
        info: Sequence::from_vec(info),
    })
}

/// Reads all attributes of an Edgebreaker mesh on its surface: the heads of its decoders, then the values
/// of each decoder in turn. The first fault of the bytes, at its place.
#[tactic(auto, unfolding(crate::specs::reading::OnSurface::attributes_on))]
pub fn read_attributes_on(
    alloc: Global,
    c: &mut Cursor<'_>,
    profile: Profile,
    surface: &EbRead<'_>,
) -> Result<AttributesRead, Refusal>
    requires faces { surface.now.sides.table.faces ≤ most_faces }
    requires seams { length surface.now.seams ≡ surface.now.attr_data }
    ensures item { Gives (attributes_read_on (classes_of (meaning surface.now))) (attributes_on (profile_numbered profile.number) (meaning surface.now) c.old) c.new result }
    ensures tables { IfOk result (λ p. AreTables p.heads (tables_on (classes_of (meaning surface.now)) p.decoders) surface.now.sides.table.faces) }
    ensures vertices { IfOk result (λ p. All (HasVertices (3 * surface.now.sides.table.faces)) (map (group_on (classes_of (meaning surface.now))) p.decoders)) }
{
    let decoders = read_heads(alloc, c, profile, Some(surface.attr_data))?;
    let attributes = read_each(alloc, c, profile, surface, decoders)?;
    Ok(attributes)
}
