//! What a whole stream declares before its data.

ghost use Rattle.drc_base.specs.Profile.{profile_numbered};
ghost use Rattle.std.specs.Prelude.{◌≡◌};
ghost use Rattle.drc_bits.specs.Reading.{Reads};
ghost use Rattle.drc_container.specs.Header.{form_of};
ghost use Rattle.stream_counts.specs.Counts.{form_counts_at, counts_declared_in};

use crate::headers::{Form, read_header};
use crate::openings::{read_cloud, read_edgebreaker, read_sequential};
use drc_base::{Fault, Profile};
use drc_bits::Cursor;

/// What a stream says of its geometry before its data.
#[derive(Clone, Copy, Debug, PartialEq, Eq)]
pub struct DeclaredCounts {
    /// Whether it is a mesh; else it is a cloud.
    pub mesh: bool,
    /// The number of faces; a cloud has none.
    pub faces: u32,
    /// The number of points; of an Edgebreaker mesh that of its vertices, of which seams make more points.
    pub points: u32,
}

/// Reads what is declared behind a header of this form.
fn read_behind(c: &mut Cursor<'_>, form: Form, profile: Profile) -> Result<DeclaredCounts, Fault>
    ensures { Reads (λ n. n) (form_counts_at (profile_numbered profile.number) (form_of form.geometry form.method) c.old) c.new result }
{
    if form.geometry == 0 {
        return read_cloud(c, profile);
    }
    if form.method == 0 {
        return read_sequential(c, profile);
    }
    read_edgebreaker(c, profile)
}

/// What a stream declares in a profile before its data: whether it is a mesh, and how many faces and points; or the first fault of
/// its header and of what opens its connectivity, which is the first fault of the stream. It takes no memory.
#[tactic(auto, unfolding(crate::specs::Counts::counts_declared_in))]
pub fn declared_counts(bytes: &[u8], profile: Profile) -> Result<DeclaredCounts, Fault>
    ensures { result ≡ counts_declared_in (profile_numbered profile.number) bytes.now }
{
    let mut c = Cursor::new(bytes);
    let form = read_header(&mut c)?;
    read_behind(&mut c, form, profile)
}
