//! The search for a face with two equal vertices.

ghost use Rattle.std.specs.Prelude.{◌≡◌, ◌<◌, ◌≤◌, ◌*◌, ◌+◌, length};
ghost use Rattle.drc_base.specs.declared.limits.TheConstants.{MAX_FACES as most_faces};
ghost use Rattle.corner_table.specs.Labels.{label_at};
ghost use Rattle.eb_rebuild.specs.Alike.{is_alike, first_alike};

/// Whether two corners of a face have one label.
fn has_equal_labels(labels: &[u32], face: u32) -> bool
    requires limit { face < most_faces }
    requires within { 3 * face + 3 ≤ length labels.now }
    ensures { result ≡ is_alike labels.now face }
{
    let at = 3 * face as usize;
    labels[at] == labels[at + 1] || labels[at + 1] == labels[at + 2] || labels[at + 2] == labels[at]
}

/// The least face with two equal labels.
pub(crate) fn first_equal(labels: &[u32], faces: u32) -> Option<u32>
    requires limit { faces ≤ most_faces }
    requires within { 3 * faces ≤ length labels.now }
    ensures { result ≡ first_alike labels.now faces }
{
    for face in 0..faces {
        if has_equal_labels(labels, face) {
            return Some(face);
        }
    }
    None
}
