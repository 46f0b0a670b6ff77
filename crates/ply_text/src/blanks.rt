//! Where the tokens of a line begin and end.

ghost use Rattle.std.specs.Prelude.{◌≡◌, ◌<◌, ◌≤◌, ◌∷◌, false, true, length, slice_index, slice_range, drop};
ghost use Rattle.ply_text.specs.Tokens.{is_blank, tokens_of};

pub(crate) fn is_blank(byte: u8) -> bool
    ensures { result ≡ is_blank byte }
{
    byte == b' ' || byte == b'\t'
}

/// The first place from `place` on without a blank, or the length of the line.
#[tactic(auto, using(crate::proofs::Splitting::skips_blank))]
pub(crate) fn token_start(line: &[u8], place: usize) -> usize
    requires { place ≤ length line.now }
    ensures from { place ≤ result }
    ensures within { result ≤ length line.now }
    ensures same { tokens_of (drop place line.now) ≡ tokens_of (drop result line.now) }
    ensures solid { result < length line.now → is_blank (slice_index line.now result) ≡ false }
{
    for i in place..line.len() {
        if !is_blank(line[i]) {
            return i;
        }
    }
    line.len()
}

/// The end of the token at `start`: the first blank after it, or the length of the line.
#[tactic(auto, using(crate::proofs::Splitting::takes_token, crate::proofs::Splitting::more_solid, crate::proofs::Splitting::one_solid))]
pub(crate) fn token_end(line: &[u8], start: usize) -> usize
    requires within { start < length line.now }
    requires solid { is_blank (slice_index line.now start) ≡ false }
    ensures after { start < result }
    ensures within { result ≤ length line.now }
    ensures first { tokens_of (drop start line.now) ≡ slice_range line.now start result ∷ tokens_of (drop result line.now) }
{
    for i in start + 1..line.len() {
        if is_blank(line[i]) {
            return i;
        }
    }
    line.len()
}
