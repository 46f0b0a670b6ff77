//! What holds of every meaning.

ghost use Rattle.laws_stream.specs.Meanings.{MeaningsAreGeometries, MeaningsAreTexts, MeaningsHaveFields, MeaningsHaveSurfaces};

/// Whatever a stream means in any profile is a geometry, for a sequential mesh, an Edgebreaker mesh and a cloud: its heads
/// pass, its points are rows that fit them, each face has three of its points, and all are within the
/// limits; where the stream is bytes, the heads have fields of their widths. The surface that an
/// Edgebreaker stream says has as many faces as the mesh, glues each side to at most one other, and has three
/// fans to a face. This is the contract of a call that does nothing.
pub fn every_meaning_is_a_geometry()
    ensures geometry { MeaningsAreGeometries }
    ensures fields { MeaningsHaveFields }
    ensures surface { MeaningsHaveSurfaces }
{}

/// The text of every meaning means that geometry: whatever bytes a stream is, where it means a geometry in a
/// profile, the text of this is read as it in the same profile. This is the contract of a call that does nothing.
pub fn every_meaning_is_a_text()
    ensures { MeaningsAreTexts }
{}
