//! What attributes are for.

ghost use Rattle.std.specs.Prelude.{◌≡◌};
ghost use Rattle.attr_heads.specs.Usages.{is_usage};

/// The usage of positions (Draco Bitstream Specification 2.2, section "Attributes Decoder", attribute types).
pub const POSITION: u8 = 0;
/// The usage of normals.
pub const NORMAL: u8 = 1;
/// The usage of colours.
pub const COLOUR: u8 = 2;
/// The usage of texture coordinates.
pub const TEXTURE_COORDINATE: u8 = 3;
/// The usage of attributes of any other meaning; the last one.
pub const GENERIC: u8 = 4;

/// Whether a byte is that of a usage.
pub fn is_usage(usage: u8) -> bool
    ensures { result ≡ is_usage usage }
{
    usage <= GENERIC
}
