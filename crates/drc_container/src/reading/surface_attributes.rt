//! Attributes on a surface, as they are kept.
//!
//! The attributes of a decoder stand at the same vertices. So of each decoder the entry of each vertex is kept once, and
//! no list of the entry of each corner is made: a corner's vertex is its class, in the surface of the stream or, where a
//! decoder has seams, in the surface that is cut at these, whose classes are kept with the decoder's values.

ghost use Rattle.std.specs.Prelude.{◌≡◌, ◌<◌, ◌^◌, ◌++◌, ◌↔◌, ℕ, List, None, Some, map, IfOk, OnOk, IsTrue, All, length};
ghost use Rattle.corner_table.specs.Ordered.{Ordered as AnyOrdered, entries_by};
ghost use Rattle.corner_table.specs.Sides.{side_at};
ghost use Rattle.drc_container.specs.reading.OnSurface.{decoder_attributes};
ghost use Rattle.mesh_model.specs.Groups.{tables_of, HasVertices};
ghost use Rattle.drc_container.specs.reading.AsRead.{attributes_over, group_on, tables_on};

use crate::reading::info::{AttrInfo, attr_infos};
use crate::surface::shared_classes::SharedClasses;
use attr_heads::Head;
use attr_section::{DecoderHead, Values};
use corner_table::{Classes, Order};
use drc_base::{Memory, Sequence};
use mesh_model::AttrGroup;
use std::alloc::Global;
use std::rc::Rc;

/// The values of a decoder's attributes, and the vertices at which they stand.
#[derive(Drop)]
pub struct DecoderValues {
    /// The class of each corner of the surface that is cut at the decoder's seams; None where it isn't cut, and the
    /// classes are those of the stream's surface.
    pub cut: Option<SharedClasses>,
    /// The entry of each class.
    pub entry_of_class: Sequence<u32>,
    /// The values of each attribute, entry after entry.
    pub values: Vec<Sequence<i32>>,
}

/// The attributes of a decoder, as they were read.
#[derive(Drop)]
pub struct DecoderRead {
    /// What each attribute is.
    pub heads: Sequence<Head>,
    /// The values of the attributes.
    pub values: DecoderValues,
    /// What is known of each attribute beside its values.
    pub info: Sequence<AttrInfo>,
}

/// The attributes on a surface, as they were read.
#[derive(Drop)]
pub struct AttributesRead {
    /// What each attribute is.
    pub heads: Sequence<Head>,
    /// The values of each decoder's attributes.
    pub decoders: Sequence<DecoderValues>,
    /// What is known of each attribute beside its values.
    pub info: Sequence<AttrInfo>,
}

/// The values of each attribute.
fn values_alone(alloc: Global, values: Vec<Values>) -> Result<Vec<Sequence<i32>>, Memory>
    ensures { IfOk result (λ v. v.items ≡ map (λ x. x.values) values.items) }
{
    let mut alone = Vec::with_capacity(alloc, values.len())?;
    for of_one in values {
        alone.push(of_one.values)?;
    }
    Ok(alone)
}

/// The attributes of a decoder with these values, in its order over a surface that isn't cut.
pub fn decoder_attributes(
    alloc: Global,
    order: &Order,
    decoder: DecoderHead,
    values: Vec<Values>,
) -> Result<DecoderRead, Memory>
    requires { length order.now.corner_of_entry < 2 ^ 32 }
    ensures over { IfOk result (λ p. (labels : List ℕ) (w : AnyOrdered) → w.corners ≡ map side_at order.now.corner_of_entry → w.entries ≡ entries_by labels order.now.entry_of_class → attributes_over labels p ≡ decoder_attributes w decoder values.items) }
    ensures entries { IfOk result (λ p. p.values.entry_of_class ≡ order.now.entry_of_class) }
    ensures whole { IfOk result (λ p. p.values.cut ≡ None) }
{
    let entries = order.corner_of_entry.len() as u32;
    let info = attr_infos(alloc, entries, decoder.heads.as_slice(), &values)?;
    let alone = values_alone(alloc, values)?;
    let entry_of_class = Vec::from_slice(alloc, order.entry_of_class.as_slice())?;
    Ok(DecoderRead {
        heads: decoder.heads,
        values: DecoderValues {
            cut: None,
            entry_of_class: Sequence::from_vec(entry_of_class),
            values: alone,
        },
        info: Sequence::from_vec(info),
    })
}

/// The attributes of a decoder, over a surface that is cut at its seams, whose corners have these classes; these are shared.
pub fn with_classes(read: DecoderRead, classes: &Rc<Classes>) -> Result<DecoderRead, Memory>
    ensures { IfOk result (λ p. p ≡ record read { values = record read.values { cut = Some classes.now.value.of_corner } }) }
{
    let shared = SharedClasses::of(classes)?;
    let DecoderRead {
        heads,
        values,
        info,
    } = read;
    let DecoderValues {
        cut: _,
        entry_of_class,
        values,
    } = values;
    Ok(DecoderRead {
        heads,
        values: DecoderValues {
            cut: Some(shared),
            entry_of_class,
            values,
        },
        info,
    })
}

/// Whether the attributes of two decoders stand on a surface that is cut alike.
fn cut_alike(a: &DecoderValues, b: &DecoderValues) -> bool
    ensures { IsTrue result ↔ (a.now.cut ≡ b.now.cut) }
{
    match (&a.cut, &b.cut) {
        (None, None) => true,
        (Some(x), Some(y)) => x.as_slice() == y.as_slice(),
        _ => false,
    }
}

/// Whether the attributes of two decoders stand at the same vertices.
fn stand_together(a: &DecoderValues, b: &DecoderValues) -> bool
    ensures { IsTrue result ↔ ((a.now.cut ≡ b.now.cut) × (a.now.entry_of_class ≡ b.now.entry_of_class)) }
{
    cut_alike(a, b) && a.entry_of_class.as_slice() == b.entry_of_class.as_slice()
}

/// The attributes of two decoders, which stand at the vertices of the first.
fn joined(first: DecoderValues, second: DecoderValues) -> Result<DecoderValues, Memory>
    ensures cut { IfOk result (λ v. v.cut ≡ first.cut) }
    ensures entries { IfOk result (λ v. v.entry_of_class ≡ first.entry_of_class) }
    ensures values { IfOk result (λ v. v.values.items ≡ first.values.items ++ second.values.items) }
{
    let mut values = first.values;
    let mut more = second.values;
    values.append(&mut more)?;
    Ok(DecoderValues {
        cut: first.cut,
        entry_of_class: first.entry_of_class,
        values,
    })
}

/// Adds the attributes of a decoder behind those of the decoders before. Where they stand at the same vertices as the last ones, they
/// become one group with them.
pub fn add_values(decoders: &mut Vec<DecoderValues>, values: DecoderValues) -> Result<(), Memory>
    ensures tables { OnOk result ((whole : List ℕ) → tables_on whole decoders.new.items ≡ tables_on whole decoders.old.items ++ tables_of (group_on whole values)) }
    ensures vertices { OnOk result ((whole : List ℕ) (corners : ℕ) → All (HasVertices corners) (map (group_on whole) decoders.old.items)
        → HasVertices corners (group_on whole values) → All (HasVertices corners) (map (group_on whole) decoders.new.items)) }
{
    let Some(last) = decoders.pop() else {
        decoders.push(values)?;
        return Ok(());
    };
    if stand_together(&last, &values) {
        decoders.push(joined(last, values)?)?;
        return Ok(());
    }
    decoders.push(last)?;
    decoders.push(values)?;
    Ok(())
}

/// The attributes of a decoder as a group; `whole` has the classes of the stream's surface.
fn group_of<'t>(whole: &'t [u32], decoder: &'t DecoderValues) -> AttrGroup<'t>
    ensures { result ≡ group_on whole.now decoder.now }
{
    let of_corner = match &decoder.cut {
        Some(cut) => cut.as_slice(),
        None => whole,
    };
    AttrGroup {
        of_corner,
        entry_of: decoder.entry_of_class.as_slice(),
        values: decoder.values.as_slice(),
    }
}

/// The groups of the attributes of these decoders; `whole` has the classes of the stream's surface.
pub fn groups_of<'t>(
    alloc: Global,
    whole: &'t [u32],
    decoders: &'t [DecoderValues],
) -> Result<Vec<AttrGroup<'t>>, Memory>
    ensures { IfOk result (λ v. v.items ≡ map (group_on whole.now) decoders.now) }
{
    let mut groups = Vec::with_capacity(alloc, decoders.len())?;
    for decoder in decoders {
        groups.push(group_of(whole, decoder))?;
    }
    Ok(groups)
}
