//! Plain faces whose bytes are all there, read from a slice. A face is seen here wherever at least nine
//! bytes are left, the points are fewer than 2^21, and each of its three indices takes at most three bytes;
//! elsewhere it may be seen or not. A face that isn't seen is read index by index.

ghost use Rattle.std.specs.Prelude.{◌≡◌, ℕ, ◌≤◌, ◌<◌, ◌^◌, [], ◌∷◌, Ok, IfSome, IsSome, drop, length};
ghost use Rattle.drc_bits.specs.Reading.{Reading, advanced};
ghost use Rattle.drc_bits.specs.Varint.{varint};
ghost use Rattle.seq_section.specs.Indices.{index_width, number_of_width, index_at, face_at};
ghost use Rattle.seq_section.specs.Short.{IsShort, IsShortFace};

/// The varint at the beginning of bytes and how many it takes, where these are at most three.
#[inline(always)]
fn short_varint(bytes: &[u8]) -> Option<(u32, usize)>
    requires { 3 ≤ length bytes.now }
    ensures value { IfSome result (λ r. varint 5 (2 ^ 32) bytes.now ≡ Ok (r.0, r.1)) }
    ensures size { IfSome result (λ r. r.1 ≤ 3) }
    ensures seen { (v : ℕ) → (k : ℕ) → varint 5 (2 ^ 32) bytes.now ≡ Ok (v, k) → k ≤ 3 → IsSome result }
{
    let first = bytes[0] as u32;
    if first < 128 {
        return Some((first, 1));
    }
    let second = bytes[1] as u32;
    if second < 128 {
        return Some((first - 128 + 128 * second, 2));
    }
    let third = bytes[2] as u32;
    if third < 128 {
        return Some((first - 128 + 128 * (second - 128 + 128 * third), 3));
    }
    None
}

/// The number at the beginning of bytes, of the width that indices below `points` have, and how many bytes
/// it takes. It is seen where three bytes are left, `points` is below 2^21, and it takes at most three.
#[inline(always)]
fn quick_number(bytes: &[u8], points: u32) -> Option<(u32, usize)>
    ensures number { IfSome result (λ r. (c : Reading) → c.rest ≡ bytes.now → number_of_width (index_width points) c ≡ Ok (r.0, advanced r.1 c)) }
    ensures size { IfSome result (λ r. r.1 ≤ length bytes.now) }
    ensures seen { 3 ≤ length bytes.now → points < 2 ^ 21 → (c : Reading) → c.rest ≡ bytes.now → (k : ℕ) → IsShort (number_of_width (index_width points)) c k → IsSome result }
{
    if bytes.len() < 3 {
        return None;
    }
    if points < 0x100 {
        return Some((bytes[0] as u32, 1));
    }
    if points < 0x1_0000 {
        return Some((u16::from_le_bytes([bytes[0], bytes[1]]) as u32, 2));
    }
    if points < 0x20_0000 {
        return short_varint(bytes);
    }
    None
}

/// The index at the beginning of bytes, and how many bytes it takes. It is seen where three bytes are left,
/// `points` is below 2^21, and it takes at most three.
#[inline(always)]
fn quick_index(bytes: &[u8], points: u32) -> Option<(u32, usize)>
    ensures index { IfSome result (λ r. (c : Reading) → c.rest ≡ bytes.now → index_at points c ≡ Ok (r.0, advanced r.1 c)) }
    ensures size { IfSome result (λ r. r.1 ≤ length bytes.now) }
    ensures seen { 3 ≤ length bytes.now → points < 2 ^ 21 → (c : Reading) → c.rest ≡ bytes.now → (k : ℕ) → IsShort (index_at points) c k → IsSome result }
{
    let (index, size) = quick_number(bytes, points)?;
    if index < points {
        Some((index, size))
    } else {
        None
    }
}

/// The bytes behind the first `n`.
fn behind(bytes: &[u8], n: usize) -> &[u8]
    requires { n ≤ length bytes.now }
    ensures { result.now ≡ drop n bytes.now }
{
    &bytes[n..]
}

/// The three indices of a face, and how many bytes they take.
#[derive(Clone, Copy)]
pub struct Quick {
    /// The first index.
    pub first: u32,
    /// The second index.
    pub second: u32,
    /// The third index.
    pub third: u32,
    /// How many bytes they take.
    pub size: usize,
}

/// The face at the beginning of bytes. It is seen where nine bytes are left, `points` is below 2^21, and
/// each of its indices takes at most three.
#[inline(always)]
pub fn quick_face(bytes: &[u8], points: u32) -> Option<Quick>
    ensures face { IfSome result (λ q. (c : Reading) → c.rest ≡ bytes.now → face_at points c ≡ Ok (q.first ∷ q.second ∷ q.third ∷ [], advanced q.size c)) }
    ensures size { IfSome result (λ q. q.size ≤ length bytes.now) }
    ensures seen { 9 ≤ length bytes.now → points < 2 ^ 21 → (c : Reading) → c.rest ≡ bytes.now → IsShortFace points c → IsSome result }
{
    let (first, a) = quick_index(bytes, points)?;
    let rest = behind(bytes, a);
    let (second, b) = quick_index(rest, points)?;
    let last = behind(rest, b);
    let (third, d) = quick_index(last, points)?;
    Some(Quick {
        first,
        second,
        third,
        size: a + b + d,
    })
}
