//! The head of an attribute and its coding.

ghost use Rattle.std.specs.Prelude.{◌≡◌, ◌<◌, IfOk, All, length};
ghost use Rattle.drc_base.specs.Profile.{profile_numbered};
ghost use Rattle.drc_bits.specs.Reading.{Reads, Gives, many_at};
ghost use Rattle.attr_heads.specs.Codings.{coding_byte};
ghost use Rattle.attr_heads.specs.HeadItems.{head_at};
ghost use Rattle.attr_section.specs.Heads.{known_coding_at, coding_at, coded_at, codings_at};
ghost use Rattle.attr_section.specs.Orders.{HasCoordinates};

use attr_heads::{Coding, Head, coded_head, read_bare_head};
use drc_base::{Fault, Kind, Profile, Refusal};
use drc_bits::Cursor;
use std::alloc::Global;

/// The heads of `n` attributes, before their codings.
pub fn read_plain_heads(alloc: Global, c: &mut Cursor<'_>, n: u32) -> Result<Vec<Head>, Refusal>
    ensures item { Gives (λ v. v.items) (many_at head_at n c.old) c.new result }
    ensures len { IfOk result (λ v. length v.items ≡ n) }
    ensures some { IfOk result (λ v. All (λ h. 0 < h.comps) v.items) }
{
    let mut heads = Vec::new(alloc);
    for _number in 0..n {
        let head = read_bare_head(c)?;
        heads.push(head)?;
    }
    Ok(heads)
}

/// The byte of the coding of a head's attribute.
pub fn coding_byte(head: &Head) -> u8
    ensures { result ≡ coding_byte head.now }
{
    Coding::of_head(head).facts().byte
}

/// Reads a coding that the profile has.
#[tactic(auto, unfolding(crate::specs::Heads::known_coding_at))]
fn read_known_coding(c: &mut Cursor<'_>, profile: Profile) -> Result<Coding, Fault>
    ensures { Reads (λ q. q) (known_coding_at (profile_numbered profile.number) c.old) c.new result }
{
    let at = c.place();
    let byte = c.get_u8()?;
    let Some(coding) = Coding::of_byte(byte) else {
        return Err(Fault::new(Kind::Coding, at));
    };
    let facts = coding.facts();
    if !profile.has(facts.since) {
        return Err(Fault::new(facts.refused_as, at));
    }
    Ok(coding)
}

/// Reads the coding of an attribute with this head.
#[tactic(auto, unfolding(crate::specs::Heads::coding_at))]
fn read_coding(c: &mut Cursor<'_>, profile: Profile, head: &Head) -> Result<Coding, Fault>
    ensures { Reads (λ q. q) (coding_at (profile_numbered profile.number) head.now c.old) c.new result }
{
    let at = c.place();
    let coding = read_known_coding(c, profile)?;
    if !coding.goes_with(head) {
        return Err(Fault::new(Kind::Coding, at));
    }
    Ok(coding)
}

/// The head by its coding, which is read.
#[tactic(auto, unfolding(crate::specs::Heads::coded_at))]
fn read_coded(c: &mut Cursor<'_>, profile: Profile, head: &Head) -> Result<Head, Fault>
    requires { 0 < head.now.comps }
    ensures item { Reads (λ h. h) (coded_at (profile_numbered profile.number) head.now c.old) c.new result }
    ensures some { IfOk result (λ h. 0 < h.comps) }
    ensures square { IfOk result HasCoordinates }
{
    let coding = read_coding(c, profile, head)?;
    Ok(coded_head(coding, head))
}

/// The heads by their codings, which are read.
pub fn read_codings(
    alloc: Global,
    c: &mut Cursor<'_>,
    profile: Profile,
    heads: &[Head],
) -> Result<Vec<Head>, Refusal>
    requires { All (λ h. 0 < h.comps) heads.now }
    ensures item { Gives (λ v. v.items) (codings_at (profile_numbered profile.number) heads.now c.old) c.new result }
    ensures len { IfOk result (λ v. length v.items ≡ length heads.now) }
    ensures some { IfOk result (λ v. All (λ h. 0 < h.comps) v.items) }
    ensures squares { IfOk result (λ v. All HasCoordinates v.items) }
{
    let mut coded = Vec::new(alloc);
    for head in heads {
        let new = read_coded(c, profile, head)?;
        coded.push(new)?;
    }
    Ok(coded)
}
