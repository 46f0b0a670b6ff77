//! The commands.

ghost use Rattle.std.specs.Prelude.{◌≡◌};
ghost use Rattle.drc_app.specs.Due.{reads};

use crate::help::HelpTopic;
use drc_base::Profile;
use drc_container::Choice;
use drc_gen::GenKind;

/// A generated mesh: its kind, its size, from `LEAST_SIZE` to `MOST_SIZE` in a command line, and its
/// seed.
#[derive(Clone, Copy, Debug, PartialEq, Eq)]
pub struct GenMesh {
    /// The kind.
    pub kind: GenKind,
    /// How many cells it has each way.
    pub size: u32,
    /// What its draws come from.
    pub seed: u64,
}

/// What a command line asks for.
#[derive(Clone, Copy, Debug, PartialEq, Eq)]
pub enum Command {
    /// PLY text to a stream, coded as chosen, in a profile.
    Enc(Choice, Profile),
    /// A stream to PLY text, read in a profile.
    Dec(Profile),
    /// A stream to a report, read in a profile.
    Info(Profile),
    /// A generated mesh to a summary. It reads nothing.
    Gen(GenMesh),
    /// A stream to a stream of the same geometry, coded as chosen, in a profile.
    Recode(Choice, Profile),
    /// A map and a stream, read in a profile, to a stream in the order before the map's rows.
    Restore(Profile),
    /// A map, PLY text and a stream, read in a profile, to a yes, or to where they differ. With true, what
    /// is glued in the stream is tested too.
    Verify(bool, Profile),
    /// PLY text of a cloud to a kd-tree file.
    KdEnc,
    /// A kd-tree file to PLY text.
    KdDec,
    /// What commands take and give. It reads nothing.
    Help(HelpTopic),
    /// The version. It reads nothing.
    Version,
}

/// Whether a command reads its input.
pub fn reads(command: Command) -> bool
    ensures { result ≡ reads command }
{
    match command {
        Command::Gen(_) => false,
        Command::Help(_) => false,
        Command::Version => false,
        _ => true,
    }
}
