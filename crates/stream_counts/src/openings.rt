//! What opens the connectivity of a stream.

ghost use Rattle.drc_base.specs.Profile.{profile_numbered};
ghost use Rattle.std.specs.Prelude.{◌≡◌, nat_le};
ghost use Rattle.drc_bits.specs.Reading.{Reads, must};
ghost use Rattle.drc_bits.specs.Numbers.{number_at};
ghost use Rattle.drc_bits.specs.Varint.{var32_at};
ghost use Rattle.seq_section.specs.Indices.{method_at};
ghost use Rattle.eb_section.specs.Opening.{traversal_at};
ghost use Rattle.stream_counts.specs.Counts.{sequential_counts_at, edgebreaker_counts_at, cloud_counts_at};

use crate::counts::DeclaredCounts;
use drc_base::{Fault, Kind, MAX_ATTRIBUTES, MAX_FACES, MAX_POINTS, Profile};
use drc_bits::Cursor;

/// The greatest method of sequential indices.
const GREATEST_INDEX_METHOD: u8 = 1;

/// The standard traversal of Edgebreaker.
const STANDARD: u8 = 0;

/// Edgebreaker's traversal by valence.
const VALENCE: u8 = 2;

/// Reads a number that is at most `most`, else a fault of this kind where it stands.
fn read_count(c: &mut Cursor<'_>, most: u32, kind: Kind) -> Result<u32, Fault>
    ensures { Reads (λ n. n) (must kind (λ n. nat_le n most) var32_at c.old) c.new result }
{
    let fault = c.fault(kind);
    let count = c.var32()?;
    if count > most {
        return Err(fault);
    }
    Ok(count)
}

/// Reads the method of sequential indices.
fn read_method(c: &mut Cursor<'_>) -> Result<u8, Fault>
    ensures { Reads (λ n. n) (method_at c.old) c.new result }
{
    let unknown = c.fault(Kind::IndexMethod);
    let method = c.get_u8()?;
    if method > GREATEST_INDEX_METHOD {
        return Err(unknown);
    }
    Ok(method)
}

/// Reads what a sequential mesh declares behind its header, which is the same in each profile of these limits.
#[tactic(auto, unfolding(crate::specs::Counts::sequential_counts_at, seq_section::specs::Indices::indices_opening_at))]
pub fn read_sequential(c: &mut Cursor<'_>, _profile: Profile) -> Result<DeclaredCounts, Fault>
    ensures { Reads (λ n. n) (sequential_counts_at (profile_numbered _profile.number) c.old) c.new result }
{
    let faces = read_count(c, MAX_FACES, Kind::FaceLimit)?;
    let points = read_count(c, MAX_POINTS, Kind::PointLimit)?;
    read_method(c)?;
    Ok(DeclaredCounts {
        mesh: true,
        faces,
        points,
    })
}

/// Reads the traversal of Edgebreaker.
fn read_traversal(c: &mut Cursor<'_>) -> Result<u8, Fault>
    ensures { Reads (λ n. n) (traversal_at c.old) c.new result }
{
    let unknown = c.fault(Kind::Traversal);
    let traversal = c.get_u8()?;
    if traversal == STANDARD || traversal == VALENCE {
        return Ok(traversal);
    }
    Err(unknown)
}

/// Reads the number of attribute data.
fn read_attr_data(c: &mut Cursor<'_>) -> Result<u8, Fault>
    ensures { Reads (λ n. n) (must Kind.AttrLimit (λ n. nat_le n MAX_ATTRIBUTES) (number_at 1) c.old) c.new result }
{
    let fault = c.fault(Kind::AttrLimit);
    let count = c.get_u8()?;
    if u32::from(count) > MAX_ATTRIBUTES {
        return Err(fault);
    }
    Ok(count)
}

/// Reads what an Edgebreaker mesh declares behind its header, which is the same in each profile of these limits.
#[tactic(auto, unfolding(crate::specs::Counts::edgebreaker_counts_at, eb_section::specs::Opening::opening_at))]
pub fn read_edgebreaker(c: &mut Cursor<'_>, _profile: Profile) -> Result<DeclaredCounts, Fault>
    ensures { Reads (λ n. n) (edgebreaker_counts_at (profile_numbered _profile.number) c.old) c.new result }
{
    read_traversal(c)?;
    let points = read_count(c, MAX_POINTS, Kind::PointLimit)?;
    let faces = read_count(c, MAX_FACES, Kind::FaceLimit)?;
    read_attr_data(c)?;
    let symbols = read_count(c, faces, Kind::Count)?;
    read_count(c, symbols, Kind::Count)?;
    Ok(DeclaredCounts {
        mesh: true,
        faces,
        points,
    })
}

/// Reads what a cloud declares behind its header, which is the same in each profile of these limits.
#[tactic(auto, unfolding(crate::specs::Counts::cloud_counts_at))]
pub fn read_cloud(c: &mut Cursor<'_>, _profile: Profile) -> Result<DeclaredCounts, Fault>
    ensures { Reads (λ n. n) (cloud_counts_at (profile_numbered _profile.number) c.old) c.new result }
{
    let fault = c.fault(Kind::PointLimit);
    let points = c.get_u32()?;
    if points > MAX_POINTS {
        return Err(fault);
    }
    Ok(DeclaredCounts {
        mesh: false,
        faces: 0,
        points,
    })
}
