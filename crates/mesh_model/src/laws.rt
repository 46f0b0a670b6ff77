//! What holds of the definitions themselves.

ghost use Rattle.mesh_model.specs.MapTextLaws.{MapReadIsMapText, MapTextIsReadAgain};
ghost use Rattle.mesh_model.specs.RenumberingLaws.{ApartNamesEachOnce, RenumberedIsMesh, RenumberedIsSame, DistinctAreFew};
ghost use Rattle.mesh_model.specs.SameLaws.{SameIsReflexive, SameIsSymmetric, SameIsTransitive};

/// Being the same up to a renumbering is an equivalence: each geometry is itself by the plain rows;
/// where `h` is `g` by rows, `g` is `h` by the rows back; and what is `h` by rows is `g` by the rows
/// of both, one after the other. This is the contract of a call that does nothing.
pub fn same_is_an_equivalence()
    ensures reflexive { SameIsReflexive }
    ensures symmetric { SameIsSymmetric }
    ensures transitive { SameIsTransitive }
{}

/// As many rows as there are faces, no two of which name the same face, name each face once; and a mesh
/// whose faces are put in the order of such rows, each turned as its row says, is a mesh, the same as before
/// by these rows. This is the contract of a call that does nothing.
pub fn renumbered_is_a_mesh()
    ensures names { ApartNamesEachOnce }
    ensures mesh { RenumberedIsMesh }
    ensures same { RenumberedIsSame }
{}

/// The distinct rows of corners, each of which is the row of a point, are no more than these points. This is
/// the contract of a call that does nothing.
pub fn distinct_rows_are_few()
    ensures { DistinctAreFew }
{}

/// The text of a renumbering, with whatever bytes behind it, is read as its rows, up to its end: where its
/// numbers are below 2^32, its turns at most 2, and there are no more rows than a geometry may have. And what
/// is read, up to its end, is the text of such a renumbering. This is the contract of a call that does nothing.
pub fn map_text_is_read_again()
    ensures again { MapTextIsReadAgain }
    ensures written { MapReadIsMapText }
{}
