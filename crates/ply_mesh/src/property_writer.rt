//! The lines of properties.

ghost use Rattle.std.specs.Prelude.{◌≡◌, ◌+◌, ◌<◌, ◌≤◌, ◌++◌, ◌∷◌, length, take, OnOk};
ghost use Rattle.std.specs.List.{list_any};
ghost use Rattle.std.specs.Fmt.{decimal};
ghost use Rattle.ply_mesh.specs.Text.{line_text, text_of, may_be_named, takes_names, has_usage_names, usage_name, plain_name, name_at, property_line, component_lines, property_lines};

use attr_heads::{COLOUR, Head, NORMAL, POSITION, TEXTURE_COORDINATE};
use drc_base::Memory;
use ply_text::{put_int, type_word};

/// The j-th name of a usage.
#[tactic(auto, unfolding(crate::specs::Text::usage_name))]
fn usage_name(usage: u8, j: u8) -> &'static [u8]
    ensures { result.now ≡ usage_name usage j }
{
    if usage == POSITION {
        if j == 0 {
            return b"x";
        }
        if j == 1 {
            return b"y";
        }
        return b"z";
    }
    if usage == NORMAL {
        if j == 0 {
            return b"nx";
        }
        if j == 1 {
            return b"ny";
        }
        return b"nz";
    }
    if usage == COLOUR {
        if j == 0 {
            return b"red";
        }
        if j == 1 {
            return b"green";
        }
        if j == 2 {
            return b"blue";
        }
        return b"alpha";
    }
    if j == 0 {
        return b"s";
    }
    b"t"
}

/// Whether a head may have the names of its usage: one with a square never does.
fn may_be_named(head: &Head) -> bool
    ensures { result ≡ may_be_named head.now }
{
    let usage = head.usage;
    let comps = head.comps;
    head.octa.is_none()
        && (((usage == POSITION || usage == NORMAL) && comps == 3)
            || (usage == COLOUR && (comps == 3 || comps == 4))
            || (usage == TEXTURE_COORDINATE && comps == 2))
}

fn takes_names(usage: u8, head: &Head) -> bool
    ensures { result ≡ takes_names usage head.now }
{
    head.usage == usage && may_be_named(head)
}

fn any_takes_names(usage: u8, heads: &[Head]) -> bool
    ensures { result ≡ list_any (takes_names usage) heads.now }
{
    for j in 0..heads.len() {
        if takes_names(usage, &heads[j]) {
            return true;
        }
    }
    false
}

/// Whether head `k` has the names of its usage: it is the first that may.
fn is_named(heads: &[Head], k: usize, head: &Head) -> bool
    requires { k ≤ length heads.now }
    ensures { result ≡ has_usage_names heads.now k head.now }
{
    may_be_named(head) && !any_takes_names(head.usage, &heads[..k])
}

/// Appends a name of component j of head k.
fn put_plain_name(out: &mut Vec<u8>, k: u32, j: u8) -> Result<(), Memory>
    ensures { OnOk result (out.new.items ≡ out.old.items ++ plain_name k j) }
{
    out.push(b'a')?;
    put_int(out, k as i64)?;
    out.push(b'_')?;
    put_int(out, j as i64)
}

/// Appends the name of component j of head k.
fn put_name(out: &mut Vec<u8>, named: bool, k: u32, usage: u8, j: u8) -> Result<(), Memory>
    ensures { OnOk result (out.new.items ≡ out.old.items ++ name_at named k usage j) }
{
    if named {
        out.extend_from_slice(usage_name(usage, j))?;
        return Ok(());
    }
    put_plain_name(out, k, j)
}

/// Appends the line of component j of head k.
fn put_property(
    out: &mut Vec<u8>,
    dtype: u8,
    named: bool,
    k: u32,
    usage: u8,
    j: u8,
) -> Result<(), Memory>
    ensures { OnOk result (out.new.items ≡ out.old.items ++ line_text (property_line dtype (name_at named k usage j))) }
{
    out.extend_from_slice(b"property ")?;
    out.extend_from_slice(type_word(dtype))?;
    out.push(b' ')?;
    put_name(out, named, k, usage, j)?;
    out.push(b'\n')?;
    Ok(())
}

/// Appends the lines of the components of head k.
#[tactic(auto, using(crate::proofs::PropertyTexts::component_more))]
fn put_components(out: &mut Vec<u8>, named: bool, k: u32, head: &Head) -> Result<(), Memory>
    ensures { OnOk result (out.new.items ≡ out.old.items ++ text_of (component_lines named k head.now 0 head.now.comps)) }
{
    let comps = head.comps;
    for j in 0..comps {
        put_property(out, head.dtype, named, k, head.usage, j)?;
    }
    Ok(())
}

/// Appends the lines of the properties of all heads.
#[tactic(auto, using(crate::proofs::PropertyTexts::properties_more))]
pub(crate) fn put_properties(out: &mut Vec<u8>, heads: &[Head]) -> Result<(), Memory>
    requires { length heads.now ≤ 16 }
    ensures { OnOk result (out.new.items ≡ out.old.items ++ text_of (property_lines heads.now 0 heads.now)) }
{
    for k in 0..heads.len() {
        let head = &heads[k];
        let named = is_named(heads, k, head);
        put_components(out, named, k as u32, head)?;
    }
    Ok(())
}
