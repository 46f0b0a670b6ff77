//! What no contract can say: that the calls succeed with ample memory, and that the definitions are the
//! ones meant, on attributes whose bytes another program gave.

ghost use Rattle.std.specs.Prelude.{◌≡◌, ◌<◌, [], ◌∷◌, false, IfOk, All};
ghost use Rattle.attr_section.specs.Orders.{HasCoordinates};
ghost use Rattle.attr_section.specs.Examples.{example_head, texture_head, position_values, texture_values, example_prediction};

use crate::faults::is_fault;
use attr_heads::{Head, Quant};
use attr_section::{
    DecoderHead, ReadPositions, Values, read_decoder, read_heads, write_decoder, write_heads,
};
use drc_base::{Fault, Kind, MAX_VALUES, Memory, PROFILE_TWO, Refusal, Sequence};
use drc_bits::Cursor;
use std::alloc::{AllocError, Global};
use std::test::Fail;

/// The head of positions.
fn positions() -> Head
    ensures { result ≡ example_head }
{
    Head {
        usage: 0,
        dtype: 5,
        comps: 3,
        normalized: 0,
        id: 0,
        quant: None,
        octa: None,
    }
}

/// The head of quantised texture coordinates.
fn texture(alloc: Global) -> Result<Head, AllocError>
    ensures { IfOk result (λ h. h ≡ texture_head) }
{
    Ok(Head {
        usage: 3,
        dtype: 9,
        comps: 2,
        normalized: 1,
        id: 300,
        quant: Some(Quant {
            bits: 8,
            range: 0x4080_0000,
            min: Sequence::from_vec(vec![in alloc; 0, 0x3f80_0000]?),
        }),
        octa: None,
    })
}

/// The difference, or no prediction.
fn prediction_of(difference: bool) -> i8
    ensures { result ≡ example_prediction difference }
{
    if difference { 0 } else { -2 }
}

/// The values of the positions, by difference or by no prediction.
fn position_values(alloc: Global, difference: bool) -> Result<Values, AllocError>
    ensures { IfOk result (λ v. v ≡ record { values = position_values; predict = example_prediction difference; at = 0 }) }
{
    Ok(Values {
        values: Sequence::from_vec(vec![in alloc; 0, 10, -5, 7, 300, -300]?),
        predict: prediction_of(difference),
        at: 0,
    })
}

/// The values of the texture coordinates, by difference or by no prediction.
fn texture_values(alloc: Global, difference: bool) -> Result<Values, AllocError>
    ensures { IfOk result (λ v. v ≡ record { values = texture_values; predict = example_prediction difference; at = 0 }) }
{
    Ok(Values {
        values: Sequence::from_vec(vec![in alloc; 1, 2, 3, 255]?),
        predict: prediction_of(difference),
        at: 0,
    })
}

/// A decoder of the two attributes, linked to this data id, with this walk.
fn decoder(alloc: Global, data_id: Option<u8>, degree: bool) -> Result<DecoderHead, AllocError>
    ensures { IfOk result (λ d. d ≡ record { data_id = data_id; corner = false; degree = degree; heads = example_head ∷ texture_head ∷ [] }) }
{
    Ok(DecoderHead {
        data_id,
        corner: false,
        degree,
        heads: Sequence::from_vec(vec![in alloc; positions(), texture(alloc)?]?),
    })
}

/// What a head says, and whether it has a quantisation.
fn told(head: &Head) -> (u8, u8, u8, u8, u32, bool) {
    (
        head.usage,
        head.dtype,
        head.comps,
        head.normalized,
        head.id,
        head.quant.is_some(),
    )
}

/// These bytes and one more.
pub(crate) fn with_one_behind(alloc: Global, bytes: &[u8]) -> Result<Vec<u8>, Memory> {
    let mut longer = Vec::new(alloc);
    longer.extend_from_slice(bytes)?;
    longer.push(0xff)?;
    Ok(longer)
}

/// Whether the decoder's heads are written as these bytes.
fn heads_are_written(
    alloc: Global,
    data_id: Option<u8>,
    degree: bool,
    eb: bool,
    bytes: &[u8],
) -> Result<bool, Refusal> {
    let decoders = vec![in alloc; decoder(alloc, data_id, degree)?]?;
    let mut written = Vec::new(alloc);
    write_heads(&mut written, &decoders, eb)?;
    Ok(written.as_slice() == bytes)
}

/// Whether a decoder is the one that is written, but for the quantisation.
fn is_bare_decoder(read: &DecoderHead, data_id: Option<u8>, degree: bool) -> bool {
    if read.heads.len() != 2 || read.data_id != data_id || read.corner || read.degree != degree {
        return false;
    }
    let heads = read.heads.as_slice();
    told(&heads[0]) == (0, 5, 3, 0, 0, false) && told(&heads[1]) == (3, 9, 2, 1, 300, false)
}

/// Whether these bytes, but for the last one, are read as the decoder's heads without quantisation.
fn heads_are_read(
    alloc: Global,
    data_id: Option<u8>,
    degree: bool,
    attr_data: Option<u8>,
    bytes: &[u8],
) -> Result<bool, Refusal> {
    let mut c = Cursor::new(bytes);
    let read = read_heads(alloc, &mut c, PROFILE_TWO, attr_data)?;
    if c.rest().len() != 1 || read.len() != 1 {
        return Ok(false);
    }
    Ok(is_bare_decoder(&read[0], data_id, degree))
}

/// Whether the decoder's heads are written as these bytes, and these bytes with one more behind them
/// are read as the heads without quantisation.
fn heads_both_ways(
    alloc: Global,
    data_id: Option<u8>,
    degree: bool,
    attr_data: Option<u8>,
    bytes: &[u8],
) -> Result<bool, Refusal> {
    if !heads_are_written(alloc, data_id, degree, attr_data.is_some(), bytes)? {
        return Ok(false);
    }
    let longer = with_one_behind(alloc, bytes)?;
    heads_are_read(alloc, data_id, degree, attr_data, longer.as_slice())
}

/// A decoder of one attribute of this type and so many components.
pub(crate) fn decoder_of(alloc: Global, dtype: u8, comps: u8) -> Result<DecoderHead, AllocError>
    requires { 0 < comps }
    ensures some { IfOk result (λ d. All (λ head. 0 < head.comps) d.heads) }
    ensures squares { IfOk result (λ d. All HasCoordinates d.heads) }
{
    let head = Head {
        usage: 4,
        dtype,
        comps,
        normalized: 0,
        id: 0,
        quant: None,
        octa: None,
    };
    Ok(DecoderHead {
        data_id: None,
        corner: false,
        degree: false,
        heads: Sequence::from_vec(vec![in alloc; head]?),
    })
}

/// Whether the values of the two attributes are written as these bytes.
fn values_are_written(
    alloc: Global,
    difference: bool,
    plain: bool,
    bytes: &[u8],
) -> Result<bool, Refusal> {
    let h = decoder(alloc, None, false)?;
    let given = vec![in alloc;
        position_values(alloc, difference)?,
        texture_values(alloc, difference)?,
    ]?;
    let mut written = Vec::new(alloc);
    write_decoder(
        alloc,
        &mut written,
        &h,
        &given,
        plain,
        None,
        ReadPositions::NotYet,
    )?;
    Ok(written.as_slice() == bytes)
}

/// Whether two lists of values are alike, of which the first one is behind so many bytes.
fn are_alike(read: &Values, given: &Values, at: u64) -> bool {
    read.at == at
        && read.predict == given.predict
        && read.values.as_slice() == given.values.as_slice()
}

/// Whether these are the values of the two attributes, the second attribute behind so many bytes.
fn are_values(
    alloc: Global,
    difference: bool,
    second: u64,
    read: &[Values],
) -> Result<bool, AllocError> {
    if read.len() != 2 {
        return Ok(false);
    }
    let positions = position_values(alloc, difference)?;
    let textures = texture_values(alloc, difference)?;
    Ok(are_alike(&read[0], &positions, 0) && are_alike(&read[1], &textures, second))
}

/// Whether these bytes, but for the last one, are read as the values and the quantisation, the second attribute
/// behind so many bytes.
fn values_are_read(
    alloc: Global,
    difference: bool,
    second: u64,
    bytes: &[u8],
) -> Result<bool, Refusal> {
    let mut h = decoder(alloc, None, false)?;
    let mut c = Cursor::new(bytes);
    let mut spent = 5;
    let read = read_decoder(
        alloc,
        &mut c,
        PROFILE_TWO,
        &mut h,
        2,
        None,
        ReadPositions::NotYet,
        &mut spent,
    )?;
    if c.rest().len() != 1 || spent != 15 {
        return Ok(false);
    }
    Ok(are_values(alloc, difference, second, read.as_slice())?)
}

/// Whether the values of the two attributes are written as these bytes, and these bytes with one more
/// behind them are read as the values and the quantisation, the second attribute behind so many bytes.
fn values_both_ways(
    alloc: Global,
    difference: bool,
    plain: bool,
    second: u64,
    bytes: &[u8],
) -> Result<bool, Refusal> {
    if !values_are_written(alloc, difference, plain, bytes)? {
        return Ok(false);
    }
    let longer = with_one_behind(alloc, bytes)?;
    values_are_read(alloc, difference, second, longer.as_slice())
}

/// The fault of the heads of decoders.
fn fault_of_heads(alloc: Global, attr_data: Option<u8>, bytes: &[u8]) -> Option<Fault> {
    match read_heads(alloc, &mut Cursor::new(bytes), PROFILE_TWO, attr_data) {
        Err(Refusal::Fault(fault)) => Some(fault),
        _ => None,
    }
}

/// The fault of the values of one attribute of one component, for one entry behind so many values.
fn fault_of_values(
    alloc: Global,
    dtype: u8,
    spent: u64,
    bytes: &[u8],
) -> Result<Option<Fault>, AllocError> {
    let mut h = decoder_of(alloc, dtype, 1)?;
    let mut spent = spent.min(MAX_VALUES as u64);
    match read_decoder(
        alloc,
        &mut Cursor::new(bytes),
        PROFILE_TWO,
        &mut h,
        1,
        None,
        ReadPositions::NotYet,
        &mut spent,
    ) {
        Err(Refusal::Fault(fault)) => Ok(Some(fault)),
        _ => Ok(None),
    }
}

/// A linkage, a walk by degree, the number of attribute data, and the bytes of the heads.
static HEADS: [(Option<u8>, bool, Option<u8>, &[u8]); 3] = [
    (
        None,
        false,
        None,
        &[1, 2, 0, 5, 3, 0, 0, 3, 9, 2, 1, 0xac, 2, 1, 2],
    ),
    (
        Some(255),
        false,
        Some(0),
        &[1, 255, 0, 0, 2, 0, 5, 3, 0, 0, 3, 9, 2, 1, 0xac, 2, 1, 2],
    ),
    (
        Some(0),
        true,
        Some(1),
        &[1, 0, 0, 1, 2, 0, 5, 3, 0, 0, 3, 9, 2, 1, 0xac, 2, 1, 2],
    ),
];

#[test]
fn heads_of_attributes_both_ways(rt: HostRuntime) -> Result<(), Fail> {
    for (data_id, degree, attr_data, bytes) in HEADS.iter() {
        assert!(rt; heads_both_ways(rt.alloc(), *data_id, *degree, *attr_data, bytes)?);
    }
    Ok(())
}

/// Whether values are coded by difference and plainly, where the second attribute begins, and the bytes.
static VALUES: [(bool, bool, u64, &[u8]); 4] = [
    (
        false,
        true,
        15,
        &[
            0xfe, 0, 2, 0, 0, 0x14, 0, 9, 0, 0xe, 0, 0x58, 2, 0x57, 2, 0xfe, 0, 2, 2, 0, 4, 0, 6,
            0, 0xfe, 1, 0, 0, 0, 0, 0, 0, 0x80, 0x3f, 0, 0, 0x80, 0x40, 8,
        ],
    ),
    (
        false,
        false,
        20,
        &[
            0xfe, 1, 0, 0xb, 0x13, 1, 0x20, 0xf, 1, 0x20, 3, 0, 0xd0, 0x80, 0x80, 0x26, 7, 0xb0,
            0xbc, 0x12, 0xfe, 1, 0, 0xa, 0xb, 1, 0x20, 0x13, 1, 0x20, 3, 0, 0xd0, 0x80, 0xa2, 1,
            0xff, 0, 0, 0, 0, 0, 0, 0x80, 0x3f, 0, 0, 0x80, 0x40, 8,
        ],
    ),
    (
        true,
        true,
        24,
        &[
            0, 1, 0, 2, 0, 0, 0x14, 0, 9, 0, 0xe, 0, 0x44, 2, 0x4d, 2, 0xd4, 0xfe, 0xff, 0xff,
            0x2c, 1, 0, 0, 0, 1, 0, 1, 0, 2, 4, 3, 1, 0, 0, 0, 0xff, 0, 0, 0, 0, 0, 0, 0, 0, 0,
            0x80, 0x3f, 0, 0, 0x80, 0x40, 8,
        ],
    ),
    (
        true,
        false,
        29,
        &[
            0, 1, 1, 0, 0xb, 0x13, 1, 0x20, 0xf, 1, 0x20, 3, 0, 0xd0, 0x80, 0x80, 0x26, 7, 0x88,
            0x6c, 0x12, 0xd4, 0xfe, 0xff, 0xff, 0x2c, 1, 0, 0, 0, 1, 1, 0, 4, 7, 1, 0x20, 1, 0x20,
            3, 0, 0xd0, 0x80, 0xc8, 1, 1, 0, 0, 0, 0xff, 0, 0, 0, 0, 0, 0, 0, 0, 0, 0x80, 0x3f, 0,
            0, 0x80, 0x40, 8,
        ],
    ),
];

#[test]
fn values_of_attributes_both_ways(rt: HostRuntime) -> Result<(), Fail> {
    for (difference, plain, second, bytes) in VALUES.iter() {
        assert!(rt;
            values_both_ways(rt.alloc(), *difference, *plain, *second, bytes)?,
            "{difference} {plain}"
        );
    }
    Ok(())
}

/// Numbers of attribute data, faulty heads, and the kind and the place of the first fault.
static FAULTS_OF_HEADS: [(Option<u8>, &[u8], Kind, u64); 24] = [
    (None, &[], Kind::Short, 0),
    (None, &[0], Kind::NoAttribute, 0),
    (None, &[17], Kind::AttrLimit, 0),
    (None, &[1, 0], Kind::NoAttribute, 1),
    (None, &[1, 17], Kind::AttrLimit, 1),
    (None, &[2, 1, 0, 5, 3, 0, 0, 1, 16], Kind::AttrLimit, 8),
    (None, &[1, 1, 5], Kind::AttrType, 2),
    (None, &[1, 1, 0, 0], Kind::DataType, 3),
    (None, &[1, 1, 0, 7], Kind::DataType, 3),
    (None, &[1, 1, 0, 5, 0], Kind::Components, 4),
    (None, &[1, 1, 0, 5, 9], Kind::Components, 4),
    (
        None,
        &[1, 1, 0, 5, 3, 0, 128, 128, 128, 128, 128],
        Kind::Long,
        6,
    ),
    (None, &[1, 1, 0, 5, 3, 0, 0], Kind::Short, 7),
    (None, &[1, 1, 0, 5, 3, 0, 0, 0], Kind::Generic, 7),
    (None, &[1, 1, 0, 5, 3, 0, 0, 3], Kind::Octahedral, 7),
    (None, &[1, 1, 0, 5, 3, 0, 0, 4], Kind::Coding, 7),
    (None, &[1, 1, 0, 5, 3, 0, 0, 2], Kind::Coding, 7),
    (None, &[1, 1, 0, 9, 3, 0, 0, 1], Kind::Coding, 7),
    (Some(1), &[1, 1], Kind::DataId, 1),
    (Some(1), &[2, 255, 0, 0, 255], Kind::DataId, 4),
    (Some(1), &[1, 255, 1], Kind::Element, 2),
    (Some(1), &[1, 0, 1, 2], Kind::Walk, 3),
    (Some(1), &[1, 0, 1, 1], Kind::Walk, 3),
    (Some(1), &[1, 255, 0, 2], Kind::Walk, 3),
];

#[test]
fn faults_of_heads(rt: HostRuntime) {
    for (attr_data, bytes, kind, at) in FAULTS_OF_HEADS.iter() {
        let found = fault_of_heads(rt.alloc(), *attr_data, bytes);
        is_fault(&rt, found, *kind, *at, bytes);
    }
}

/// Types of one component, how many values came before, faulty values of one entry, and the kind and the place of
/// the first fault.
static FAULTS_OF_VALUES: [(u8, u64, &[u8], Kind, u64); 17] = [
    (5, 0, &[], Kind::Short, 0),
    (5, 1 << 26, &[], Kind::ValueLimit, 0),
    (5, 0, &[5], Kind::Prediction, 0),
    // Parallelograms need a surface.
    (5, 0, &[1, 1], Kind::Prediction, 0),
    (5, 0, &[4, 1], Kind::Prediction, 0),
    (5, 0, &[0, 0], Kind::Transform, 1),
    (5, 0, &[254, 0, 0], Kind::ByteWidth, 2),
    (5, 0, &[254, 0, 5], Kind::ByteWidth, 2),
    (5, 0, &[254, 1, 2], Kind::Scheme, 2),
    (5, 0, &[254, 0, 2, 0], Kind::Short, 3),
    (
        5,
        0,
        &[0, 1, 0, 1, 0, 1, 0, 0, 0, 0, 0, 0, 0],
        Kind::WrapRange,
        5,
    ),
    // A value outside its type: by itself, and restored.
    (1, 0, &[254, 0, 2, 1, 1], Kind::ValueRange, 0),
    (2, 0, &[254, 0, 1, 1], Kind::ValueRange, 0),
    (6, 0, &[254, 0, 1, 1], Kind::ValueRange, 0),
    (
        2,
        0,
        &[0, 1, 0, 1, 0, 0, 1, 0, 0, 0, 1, 0, 0],
        Kind::ValueRange,
        0,
    ),
    (
        9,
        0,
        &[254, 0, 1, 2, 0, 0, 0, 0, 0, 0, 0, 0, 0],
        Kind::QuantBits,
        12,
    ),
    (
        9,
        0,
        &[254, 0, 1, 2, 0, 0, 0, 0, 0, 0, 0, 0, 31],
        Kind::QuantBits,
        12,
    ),
];

#[test]
fn faults_of_values(rt: HostRuntime) -> Result<(), Fail> {
    for (dtype, spent, bytes, kind, at) in FAULTS_OF_VALUES.iter() {
        let found = fault_of_values(rt.alloc(), *dtype, *spent, bytes)?;
        is_fault(&rt, found, *kind, *at, bytes);
    }
    Ok(())
}
