//! What holds of the definitions themselves.

ghost use Rattle.laws_text.specs.Laws.{HeadersAreShapes, TextHeadersAreShapes, NamesAreShapes, TextsAreShapes};

/// The header of a PLY text is, in each profile, a shape of its lines: it is read exactly where the lines begin with the magic, then
/// declarations in their one order with comments anywhere among them, and the end line; and it is what these say,
/// whatever follows. Where no comment describes attributes, they are those of the pieces of the properties that have
/// known names. This is the contract of a call that does nothing.
pub fn headers_are_shapes()
    ensures lines { HeadersAreShapes }
    ensures text { TextHeadersAreShapes }
    ensures names { NamesAreShapes }
{}

/// In each profile a PLY text means a geometry exactly where its lines have the shape of a text: a header, a line for each point, a
/// line for each face, and then only lines without tokens; and it is what they say. This is the contract of a call
/// that does nothing.
pub fn texts_are_shapes()
    ensures { TextsAreShapes }
{}
