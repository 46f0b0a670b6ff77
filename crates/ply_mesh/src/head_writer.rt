//! The comment lines of heads.

ghost use Rattle.std.specs.Prelude.{◌≡◌, ◌+◌, ◌<◌, ◌≤◌, ◌^◌, ◌++◌, ◌∷◌, length, drop, map, OnOk, IfSome, All};
ghost use Rattle.std.specs.Fmt.{decimal};
ghost use Rattle.attr_heads.specs.Head.{width_of};
ghost use Rattle.ply_mesh.specs.Fields.{QuantFields, HasFields};
ghost use Rattle.ply_mesh.specs.Text.{spaced, line_text, text_of, hex_digit, pattern_text, attr_line, quant_line, quant_lines, octa_line, octa_lines, detail_lines, head_lines};

use attr_heads::{Head, Quant};
use decimal_text::append_spaced;
use drc_base::Memory;

fn hex_digit(d: u32) -> u8
    requires { d < 16 }
    ensures { result ≡ hex_digit d }
{
    if d < 10 { 48 + d as u8 } else { 87 + d as u8 }
}

/// Appends a space and a bit pattern.
#[tactic(auto, unfolding(crate::specs::Text::pattern_text))]
fn put_pattern(out: &mut Vec<u8>, v: u32) -> Result<(), Memory>
    ensures { OnOk result (out.new.items ≡ out.old.items ++ (32 ∷ pattern_text v)) }
{
    let a = v / 16;
    let b = a / 16;
    let c = b / 16;
    let d = c / 16;
    let e = d / 16;
    let f = e / 16;
    let g = f / 16;
    let text = [
        b' ',
        hex_digit(g % 16),
        hex_digit(f % 16),
        hex_digit(e % 16),
        hex_digit(d % 16),
        hex_digit(c % 16),
        hex_digit(b % 16),
        hex_digit(a % 16),
        hex_digit(v % 16),
    ];
    out.extend_from_slice(&text)?;
    Ok(())
}

/// Appends a space and a bit pattern for each of the minima.
fn put_patterns(out: &mut Vec<u8>, min: &[u32]) -> Result<(), Memory>
    ensures text { OnOk result (out.new.items ≡ out.old.items ++ spaced (map pattern_text min.now)) }
    ensures fields { All (λ m. m < 2 ^ 32) min.now }
{
    for i in 0..min.len() {
        put_pattern(out, min[i])?;
    }
    Ok(())
}

/// Appends the line of head `k`.
fn put_attr(out: &mut Vec<u8>, k: u32, head: &Head) -> Result<(), Memory>
    ensures text { OnOk result (out.new.items ≡ out.old.items ++ line_text (attr_line k head.now)) }
    ensures fields { OnOk result ((head.now.normalized < 256) × (head.now.id < 2 ^ 32)) }
{
    out.extend_from_slice(b"comment drc attr")?;
    append_spaced(out, k as u64)?;
    append_spaced(out, head.usage as u64)?;
    append_spaced(out, head.dtype as u64)?;
    append_spaced(out, head.comps as u64)?;
    append_spaced(out, head.normalized as u64)?;
    append_spaced(out, head.id as u64)?;
    out.push(b'\n')?;
    Ok(())
}

/// Appends the line of the quantisation of head `k`.
fn put_quant(out: &mut Vec<u8>, k: u32, quant: &Quant) -> Result<(), Memory>
    ensures text { OnOk result (out.new.items ≡ out.old.items ++ line_text (quant_line k quant.now)) }
    ensures fields { OnOk result (QuantFields quant.now) }
{
    out.extend_from_slice(b"comment drc quant")?;
    append_spaced(out, k as u64)?;
    append_spaced(out, quant.bits as u64)?;
    put_pattern(out, quant.range)?;
    put_patterns(out, quant.min.as_slice())?;
    out.push(b'\n')?;
    Ok(())
}

/// Appends the line of the quantisation of head `k`, where it has one.
fn put_quants(out: &mut Vec<u8>, k: u32, quant: &Option<Quant>) -> Result<(), Memory>
    ensures text { OnOk result (out.new.items ≡ out.old.items ++ text_of (quant_lines k quant.now)) }
    ensures fields { OnOk result (IfSome quant.now QuantFields) }
{
    match quant {
        None => Ok(()),
        Some(quant) => put_quant(out, k, quant),
    }
}

/// Appends the line of the square of head `k`.
fn put_octa(out: &mut Vec<u8>, k: u32, bits: u8) -> Result<(), Memory>
    ensures { OnOk result (out.new.items ≡ out.old.items ++ line_text (octa_line k bits)) }
{
    out.extend_from_slice(b"comment drc octa")?;
    append_spaced(out, k as u64)?;
    append_spaced(out, bits as u64)?;
    out.push(b'\n')?;
    Ok(())
}

/// Appends the line of the square of head `k`, where it has one.
fn put_octas(out: &mut Vec<u8>, k: u32, octa: Option<u8>) -> Result<(), Memory>
    ensures { OnOk result (out.new.items ≡ out.old.items ++ text_of (octa_lines k octa)) }
{
    match octa {
        None => Ok(()),
        Some(bits) => put_octa(out, k, bits),
    }
}

/// Appends the lines of head `k`.
fn put_head(out: &mut Vec<u8>, k: u32, head: &Head) -> Result<(), Memory>
    ensures text { OnOk result (out.new.items ≡ out.old.items ++ text_of (attr_line k head.now ∷ detail_lines k head.now)) }
    ensures fields { OnOk result (HasFields head.now) }
{
    put_attr(out, k, head)?;
    put_quants(out, k, &head.quant)?;
    put_octas(out, k, head.octa)
}

/// Appends the lines of the heads.
pub(crate) fn put_heads(out: &mut Vec<u8>, heads: &[Head]) -> Result<(), Memory>
    requires { length heads.now ≤ 16 }
    ensures text { OnOk result (out.new.items ≡ out.old.items ++ text_of (head_lines 0 heads.now)) }
    ensures fields { OnOk result (All HasFields heads.now) }
{
    for k in 0..heads.len() {
        put_head(out, k as u32, &heads[k])?;
    }
    Ok(())
}
