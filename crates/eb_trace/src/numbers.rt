//! Entries by the numbers of corners.

ghost use Rattle.std.specs.Prelude.{◌≡◌, ◌<◌, length, get_or};
ghost use Rattle.corner_table.specs.Table.{free_entry};

/// The entry of a face that has no number to be kept.
pub(crate) const NONE: u32 = u32::MAX;

/// The entry of a side or corner.
pub(crate) fn entry_at(entries: &[u32], number: u32) -> u32
    requires { number < length entries.now }
    ensures { result ≡ get_or entries.now number free_entry }
{
    entries[number as usize]
}
