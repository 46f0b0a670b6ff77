//! What holds of the definitions themselves.

ghost use Rattle.drc_verify.specs.Checked.{SurfaceHasFaces};
ghost use Rattle.drc_verify.specs.GluedLaws.{GluedVerdictsAreTold, GluedYesIsSame};
ghost use Rattle.drc_verify.specs.Laws.{SidesAreTold, VerdictsAreTold, YesIsSame};

/// The verdict on rows is `Same` exactly where the rows and both geometries are all of meshes or all of
/// clouds, and the one geometry is the other by the rows; and each other verdict says what is wrong, and
/// that all that is tested before it is right. The first side that isn't glued alike is the least one, and where
/// there is none all are. This is the contract of a call that does nothing.
pub fn a_yes_is_the_same()
    ensures yes { YesIsSame }
    ensures told { VerdictsAreTold }
    ensures sides { SidesAreTold }
{}

/// The verdict with surfaces is `Same` exactly where the stream has a surface, the text is a mesh that begins with a
/// position and has no face with two corners at one position, the rows are right, and each side of the stream's
/// surface has the partner that its side in the mesh has, under the new numbers that the rows give to the faces, or
/// none as that. Each other verdict says what is wrong, and that all that is tested before it is right: `Pair` that
/// the rows are right, and which side is the least that isn't glued as they say. This is the contract of a call that
/// does nothing.
pub fn a_glued_yes_is_the_same()
    ensures yes { GluedYesIsSame }
    ensures told { GluedVerdictsAreTold }
{}

/// The surface of a stream has as many faces as its mesh. This is the contract of a call that does nothing.
pub(crate) fn a_surface_has_the_faces()
    ensures { SurfaceHasFaces }
{}
