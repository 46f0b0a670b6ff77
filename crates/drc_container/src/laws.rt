//! What holds of the definitions themselves.

ghost use Rattle.drc_container.specs.Laws.{MeshesPass, CloudsPass, ProfilesHaveTheirHeads};
ghost use Rattle.drc_container.specs.choice.Encodable.{EncodableIsEncoded};
ghost use Rattle.drc_container.specs.reading.Profiles.{WiderMeansTheSame, OldFilesMeanTheSame, LaterProfilesMeanTheSame};

/// What is read of a sequential mesh or a cloud is a geometry: the faces, or the number of points, and the
/// attributes behind them pass each test of a mesh or a cloud, since the limits, the indices and the ranges
/// of values were tested where they stand in the stream. So the last part of what such a stream means has
/// no fault of its own, and every fault is that of one of its items. Of an Edgebreaker mesh the points are
/// counted at its end alone, where it is assembled. And each profile has the heads of what it reads, of whatever
/// form: before profile 3 no attribute is octahedral. This is the contract of a call that does nothing.
pub fn what_is_read_is_a_geometry()
    ensures meshes { MeshesPass }
    ensures clouds { CloudsPass }
    ensures heads { ProfilesHaveTheirHeads }
{}

/// A file of this codec's first profile keeps its meaning: where its bytes are a geometry under the
/// first limits (2^20 faces, 2^20 points, 2^24 values, and no prediction that came later), decoding
/// gives the same geometry, with the same end and the same places; and so it is for any two profiles
/// of which the second accepts all that the first accepts, as profile 3 accepts all that profile 2 accepts.
/// This is the contract of a call that does nothing.
pub fn old_files_keep_their_meaning()
    ensures wider { WiderMeansTheSame }
    ensures old { OldFilesMeanTheSame }
    ensures later { LaterProfilesMeanTheSame }
{}

/// Where the first attribute of a mesh is a position, there is a face, no face has two corners at one
/// position, three times the faces are at most `MAX_POINTS`, three times the faces times the components
/// of all attributes are at most `MAX_VALUES`, and the integers of all points lie in a range whose ends
/// are less than 2^31 - 1 apart, no choice that fits a mesh refuses it: `encode` answers its stream, or
/// out of memory. This is the contract of a call that does nothing.
pub fn encodable_meshes_are_encoded()
    ensures { EncodableIsEncoded }
{}
