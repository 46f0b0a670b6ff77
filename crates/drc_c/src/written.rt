//! Streams and maps that are written, and how C gets them.

ghost use Rattle.std.specs.Prelude.{◌≡◌, ◌<◌, ◌≤◌, ◌⊎◌, length};
ghost use Rattle.drc_c.specs.Arrays.{filled, filled_unless_empty, LacksRoomFor};

use crate::arrays::fill;
use crate::handing::{handed_bytes, handed_rows};
use crate::statuses::{DONE, NO_ROOM};
use crate::streams::{DrcLengths, DrcRow, DrcStream};

/// A stream and its map.
#[derive(Drop)]
pub struct Encoded {
    /// The bytes of the stream.
    pub bytes: Vec<u8>,
    /// The rows of the map.
    pub rows: Vec<DrcRow>,
}

/// Writes the rows of a map to the front of an array, which has room for them, unless it has no room at all.
fn fill_unless_empty(room: &mut [DrcRow], rows: &[DrcRow])
    requires { (length room.old ≡ 0) ⊎ (length rows.now ≤ length room.old) }
    ensures { room.new ≡ filled_unless_empty rows.now room.old }
{
    if !room.is_empty() {
        fill(room, rows);
    }
}

/// Writes a stream and its map to the front of arrays, where both have room, and how much there is of both. Where there is no
/// room for any row the map is left out.
pub fn place(
    encoded: &Encoded,
    bytes: &mut [u8],
    rows: &mut [DrcRow],
    lengths: &mut DrcLengths,
) -> u32
    ensures statuses { (result ≡ DONE) ⊎ (result ≡ NO_ROOM) }
    ensures lengths { lengths.new ≡ record { bytes = length encoded.now.bytes.items; rows = length encoded.now.rows.items } }
    ensures done { result ≡ DONE → (bytes.new ≡ filled encoded.now.bytes.items bytes.old)
        × (rows.new ≡ filled_unless_empty encoded.now.rows.items rows.old) }
    ensures no_room { result ≡ NO_ROOM
        → ((length bytes.old < length encoded.now.bytes.items) ⊎ LacksRoomFor encoded.now.rows.items rows.old)
        × (bytes.new ≡ bytes.old) × (rows.new ≡ rows.old) }
{
    lengths.bytes = encoded.bytes.len();
    lengths.rows = encoded.rows.len();
    if encoded.bytes.len() > bytes.len() {
        return NO_ROOM;
    }
    if !rows.is_empty() && encoded.rows.len() > rows.len() {
        return NO_ROOM;
    }
    fill(bytes, &encoded.bytes);
    fill_unless_empty(rows, &encoded.rows);
    DONE
}

/// Hands out a stream and its map.
pub fn handed(encoded: Encoded) -> DrcStream
    ensures { result.lengths ≡ record { bytes = length encoded.bytes.items; rows = length encoded.rows.items } }
{
    let lengths = DrcLengths {
        bytes: encoded.bytes.len(),
        rows: encoded.rows.len(),
    };
    DrcStream {
        lengths,
        bytes: handed_bytes(encoded.bytes),
        rows: handed_rows(encoded.rows),
    }
}
