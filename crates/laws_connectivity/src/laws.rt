//! What holds of the definitions themselves.

ghost use Rattle.laws_connectivity.specs.Laws.{IndicesAreRead, ConnectivityIsRead};

/// The section of faces whose indices are below a number of points, packed or each by itself, is read as
/// these faces and this number. This is the contract of a call that does nothing.
pub fn indices_are_read()
    ensures { IndicesAreRead }
{}

/// The section of a trace that reverse decoding reads, standard or by valence, with lists of seam bits, is
/// read as what the machine builds of the trace, with a block of seam bits for each list. This is the
/// contract of a call that does nothing.
pub fn connectivity_is_read()
    ensures { ConnectivityIsRead }
{}
