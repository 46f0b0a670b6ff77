//! Varints: seven bits a byte, the low group first, the high bit of each byte but the last set.

ghost use Rattle.std.specs.Prelude.{◌≡◌, ◌<◌, ◌≤◌, ◌^◌, ◌++◌, List, ℕ, Ok, length, IfOk, MatchResult, All};
ghost use Rattle.drc_bits.specs.Varint.{varint, spelling};

use arrayvec::ArrayVec;
use drc_base::Kind;

/// The varint of 32 bits at the beginning of `bytes` and how many bytes it takes, or `Short` or `Long`.
pub fn var32_front(bytes: &[u8]) -> Result<(u32, usize), Kind>
    ensures value { MatchResult result (λ x. varint 5 (2 ^ 32) bytes.now ≡ Ok (x.0, x.1)) (λ k. varint 5 (2 ^ 32) bytes.now ≡ Err k) }
    ensures len { IfOk result (λ x. x.1 ≤ length bytes.now) }
{
    let mut value: u64 = 0;
    let mut weight: u64 = 1;
    for i in 0..5usize {
        if i >= bytes.len() {
            return Err(Kind::Short);
        }
        let byte = bytes[i] as u64;
        if byte < 128 {
            value += byte * weight;
            if value >= 0x1_0000_0000 {
                return Err(Kind::Long);
            }
            return Ok((value as u32, i + 1));
        }
        value += (byte - 128) * weight;
        weight *= 128;
    }
    Err(Kind::Long)
}

/// The varint of 64 bits at the beginning of `bytes` and how many bytes it takes, or `Short` or `Long`.
pub fn var64_front(bytes: &[u8]) -> Result<(u64, usize), Kind>
    ensures value { MatchResult result (λ x. varint 10 (2 ^ 64) bytes.now ≡ Ok (x.0, x.1)) (λ k. varint 10 (2 ^ 64) bytes.now ≡ Err k) }
    ensures len { IfOk result (λ x. x.1 ≤ length bytes.now) }
{
    let mut value: u128 = 0;
    let mut weight: u128 = 1;
    for i in 0..10usize {
        if i >= bytes.len() {
            return Err(Kind::Short);
        }
        let byte = bytes[i] as u128;
        if byte < 128 {
            value += byte * weight;
            if value >= 0x1_0000_0000_0000_0000 {
                return Err(Kind::Long);
            }
            return Ok((value as u64, i + 1));
        }
        value += (byte - 128) * weight;
        weight *= 128;
    }
    Err(Kind::Long)
}

/// The shortest varint of `v`. It takes no memory.
pub fn put_var32(v: u32) -> ArrayVec<u8, 5>
    ensures spelling { result.items ≡ spelling 5 v }
    ensures again { (rest : List ℕ) → varint 5 (2 ^ 32) (result.items ++ rest) ≡ Ok (v, length result.items) }
    ensures shortest { (bytes : List ℕ) (n : ℕ) → All (λ b. b < 256) bytes → varint 5 (2 ^ 32) bytes ≡ Ok (v, n) → length result.items ≤ n }
{
    let mut bytes = ArrayVec::new();
    let mut left = v;
    while left >= 128 {
        bytes.push((left % 128) as u8 + 128);
        left /= 128;
    }
    bytes.push(left as u8);
    bytes
}

/// The shortest varint of `v`. It takes no memory.
pub fn put_var64(v: u64) -> ArrayVec<u8, 10>
    ensures spelling { result.items ≡ spelling 10 v }
    ensures again { (rest : List ℕ) → varint 10 (2 ^ 64) (result.items ++ rest) ≡ Ok (v, length result.items) }
    ensures shortest { (bytes : List ℕ) (n : ℕ) → All (λ b. b < 256) bytes → varint 10 (2 ^ 64) bytes ≡ Ok (v, n) → length result.items ≤ n }
{
    let mut bytes = ArrayVec::new();
    let mut left = v;
    while left >= 128 {
        bytes.push((left % 128 + 128) as u8);
        left /= 128;
    }
    bytes.push(left as u8);
    bytes
}
