//! The types of properties, each by its row of one table.

ghost use Rattle.std.specs.Prelude.{◌≡◌, IsTrue, IfSome};
ghost use Rattle.attr_heads.specs.DataTypes.{is_integer};
ghost use Rattle.ply_text.specs.PropertyTypes.{type_row, has_word, type_byte, type_named, type_having, type_of, column_type, type_word};

use crate::words::is_word;
use attr_heads::{DataType, is_float};

/// The type of a property of integers (PLY 1.0).
#[derive(Clone, Copy)]
pub(crate) enum PropertyType {
    Char,
    Uchar,
    Short,
    Ushort,
    Int,
    Uint,
}

/// What is known of the type of a property.
#[derive(Clone, Copy)]
struct TypeRow {
    /// The data type of its values.
    pub dtype: DataType,
    /// The word that is written.
    pub written: &'static [u8],
    /// The other word that is read.
    pub other: &'static [u8],
}

fn row(dtype: DataType, written: &'static [u8], other: &'static [u8]) -> TypeRow
    ensures dtype { result.dtype ≡ dtype }
    ensures written { result.written.now ≡ written.now }
    ensures other { result.other.now ≡ other.now }
{
    TypeRow {
        dtype,
        written,
        other,
    }
}

impl PropertyType {
    /// The row of the type.
    fn row(self) -> TypeRow
        ensures dtype { result.dtype ≡ (type_row self).dtype }
        ensures written { result.written.now ≡ (type_row self).written }
        ensures other { result.other.now ≡ (type_row self).other }
    {
        match self {
            PropertyType::Char => row(DataType::Int8, b"char", b"int8"),
            PropertyType::Uchar => row(DataType::Uint8, b"uchar", b"uint8"),
            PropertyType::Short => row(DataType::Int16, b"short", b"int16"),
            PropertyType::Ushort => row(DataType::Uint16, b"ushort", b"uint16"),
            PropertyType::Int => row(DataType::Int32, b"int", b"int32"),
            PropertyType::Uint => row(DataType::Uint32, b"uint", b"uint32"),
        }
    }

    /// The byte of its data type.
    fn byte(self) -> u8
        ensures { result ≡ type_byte self }
    {
        self.row().dtype.facts().byte
    }

    /// Whether this is one of its words.
    fn has_word(self, word: &[u8]) -> bool
        ensures { result ≡ has_word self word.now }
    {
        let row = self.row();
        is_word(word, row.written) || is_word(word, row.other)
    }

    /// The type of a word, where there is one.
    fn named(word: &[u8]) -> Option<PropertyType>
        ensures { result ≡ type_named word.now }
    {
        if PropertyType::Char.has_word(word) {
            return Some(PropertyType::Char);
        }
        if PropertyType::Uchar.has_word(word) {
            return Some(PropertyType::Uchar);
        }
        if PropertyType::Short.has_word(word) {
            return Some(PropertyType::Short);
        }
        if PropertyType::Ushort.has_word(word) {
            return Some(PropertyType::Ushort);
        }
        if PropertyType::Int.has_word(word) {
            return Some(PropertyType::Int);
        }
        if PropertyType::Uint.has_word(word) {
            return Some(PropertyType::Uint);
        }
        None
    }

    /// The type of the values of a data type, where there is one.
    fn having(dtype: u8) -> Option<PropertyType>
        ensures { result ≡ type_having dtype }
    {
        if PropertyType::Char.byte() == dtype {
            return Some(PropertyType::Char);
        }
        if PropertyType::Uchar.byte() == dtype {
            return Some(PropertyType::Uchar);
        }
        if PropertyType::Short.byte() == dtype {
            return Some(PropertyType::Short);
        }
        if PropertyType::Ushort.byte() == dtype {
            return Some(PropertyType::Ushort);
        }
        if PropertyType::Int.byte() == dtype {
            return Some(PropertyType::Int);
        }
        if PropertyType::Uint.byte() == dtype {
            return Some(PropertyType::Uint);
        }
        None
    }
}

/// The data type that a type word names.
#[tactic(auto, unfolding(crate::specs::PropertyTypes::type_of), using(crate::proofs::PropertyTypes::types_integer))]
pub(crate) fn type_of(word: &[u8]) -> Option<u8>
    ensures dtype { result ≡ type_of word.now }
    ensures integer { IfSome result (λ dtype. IsTrue (is_integer dtype)) }
{
    match PropertyType::named(word) {
        None => None,
        Some(t) => Some(t.byte()),
    }
}

/// The data type of the properties of a head of this type: integers of 32 bits stand for floats.
pub(crate) fn column_type(dtype: u8) -> u8
    ensures { result ≡ column_type dtype }
{
    if is_float(dtype) {
        DataType::Int32.facts().byte
    } else {
        dtype
    }
}

/// The type word that is written for the properties of a head of this data type.
#[tactic(auto, unfolding(crate::specs::PropertyTypes::type_word))]
pub fn type_word(dtype: u8) -> &'static [u8]
    ensures { result.now ≡ type_word dtype }
{
    let t = PropertyType::having(column_type(dtype)).unwrap_or(PropertyType::Int);
    t.row().written
}
