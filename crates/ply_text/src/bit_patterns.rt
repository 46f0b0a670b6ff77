//! Bit patterns of 32 bits as hexadecimal text.

ghost use Rattle.std.specs.Prelude.{◌≡◌, ◌≤◌, ◌<◌, IfSome};
ghost use Rattle.ply_text.specs.Numbers.{hex_value, pattern_of};

/// The value of a hexadecimal digit of either case.
fn hex_value(byte: u8) -> Option<u8>
    ensures value { result ≡ hex_value byte }
    ensures small { IfSome result (λ d. d < 16) }
{
    if byte >= b'0' && byte <= b'9' {
        return Some(byte - b'0');
    }
    if byte >= b'a' && byte <= b'f' {
        return Some(byte - 87);
    }
    if byte >= b'A' && byte <= b'F' {
        return Some(byte - 55);
    }
    None
}

/// The bit pattern that eight hexadecimal digits write.
#[tactic(auto, using(crate::proofs::Patterns::hex_step, crate::proofs::Patterns::hex_fits), unfolding(crate::specs::Numbers::pattern_of))]
pub(crate) fn pattern_of(token: &[u8]) -> Option<u32>
    ensures { result ≡ pattern_of token.now }
{
    if token.len() != 8 {
        return None;
    }
    let mut value: u32 = 0;
    for i in 0..token.len() {
        let digit = hex_value(token[i])?;
        value = value * 16 + digit as u32;
    }
    Some(value)
}
