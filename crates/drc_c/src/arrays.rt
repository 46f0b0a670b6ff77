//! Arrays of the caller.

ghost use Rattle.std.specs.Prelude.{◌≡◌, ◌≤◌, length};
ghost use Rattle.drc_c.specs.Arrays.{filled, put_front};

/// Writes the items to the front of an array, which has room for them.
pub fn fill<T: Copy>(room: &mut [T], items: &[T])
    requires { length items.now ≤ length room.old }
    ensures { room.new ≡ filled items.now room.old }
{
    room[..items.len()].copy_from_slice(items);
}

/// Writes items to the front of an array, as many as it has room for.
pub fn put_front(room: &mut [u32], items: &[u32])
    ensures { room.new ≡ put_front items.now room.old }
{
    let count = items.len().min(room.len());
    fill(room, &items[..count]);
}
