//! The data types of attributes, each by its row of one table.

ghost use Rattle.std.specs.Prelude.{◌≡◌};
ghost use Rattle.attr_heads.specs.DataTypes.{type_facts, type_of, is_type, is_float, is_integer, least_of, greatest_of};

/// The data type of an attribute (Draco Bitstream Specification 2.2, section "Attributes Decoder"; which are accepted is this
/// project's choice).
#[derive(Clone, Copy, Debug, PartialEq, Eq)]
pub enum DataType {
    /// Integers of 8 bits with a sign.
    Int8,
    /// Integers of 8 bits.
    Uint8,
    /// Integers of 16 bits with a sign.
    Int16,
    /// Integers of 16 bits.
    Uint16,
    /// Integers of 32 bits with a sign.
    Int32,
    /// Integers of 32 bits, of which those up to 2^31 - 1 are accepted.
    Uint32,
    /// Floats of 32 bits, which integers stand for.
    Float32,
}

/// What is known of a data type.
#[derive(Clone, Copy, Debug)]
pub struct TypeFacts {
    /// Its byte in a stream.
    pub byte: u8,
    /// Whether its values are floats, which the integers of the attribute stand for.
    pub float: bool,
    /// The least integer of an attribute of this type.
    pub least: i32,
    /// The greatest integer of an attribute of this type.
    pub greatest: i32,
}

impl DataType {
    /// The row of the data type.
    pub fn facts(self) -> TypeFacts
        ensures { result ≡ type_facts self }
    {
        let (byte, float, least, greatest) = match self {
            DataType::Int8 => (1, false, -0x80, 0x7f),
            DataType::Uint8 => (2, false, 0, 0xff),
            DataType::Int16 => (3, false, -0x8000, 0x7fff),
            DataType::Uint16 => (4, false, 0, 0xffff),
            DataType::Int32 => (5, false, -0x8000_0000, 0x7fff_ffff),
            DataType::Uint32 => (6, false, 0, 0x7fff_ffff),
            DataType::Float32 => (9, true, -0x8000_0000, 0x7fff_ffff),
        };
        TypeFacts {
            byte,
            float,
            least,
            greatest,
        }
    }

    /// The data type of a byte, where there is one.
    pub fn of_byte(byte: u8) -> Option<DataType>
        ensures { result ≡ type_of byte }
    {
        match byte {
            1 => Some(DataType::Int8),
            2 => Some(DataType::Uint8),
            3 => Some(DataType::Int16),
            4 => Some(DataType::Uint16),
            5 => Some(DataType::Int32),
            6 => Some(DataType::Uint32),
            9 => Some(DataType::Float32),
            _ => None,
        }
    }
}

/// Whether a byte is that of an accepted data type.
pub fn is_type(dtype: u8) -> bool
    ensures { result ≡ is_type dtype }
{
    DataType::of_byte(dtype).is_some()
}

/// Whether a byte is that of a type of floats.
pub fn is_float(dtype: u8) -> bool
    ensures { result ≡ is_float dtype }
{
    match DataType::of_byte(dtype) {
        None => false,
        Some(t) => t.facts().float,
    }
}

/// Whether a byte is that of a type of integers.
pub fn is_integer(dtype: u8) -> bool
    ensures { result ≡ is_integer dtype }
{
    match DataType::of_byte(dtype) {
        None => false,
        Some(t) => !t.facts().float,
    }
}

/// The least integer of an attribute of this type; 0 where no type has this byte.
pub fn least_of(dtype: u8) -> i32
    ensures { result ≡ least_of dtype }
{
    match DataType::of_byte(dtype) {
        None => 0,
        Some(t) => t.facts().least,
    }
}

/// The greatest integer of an attribute of this type; 2^31 - 1 where no type has this byte.
pub fn greatest_of(dtype: u8) -> i32
    ensures { result ≡ greatest_of dtype }
{
    match DataType::of_byte(dtype) {
        None => 0x7fff_ffff,
        Some(t) => t.facts().greatest,
    }
}
