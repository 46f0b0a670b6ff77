//! What holds of the definitions themselves.

ghost use Rattle.kd_tree.specs.Laws.{BitsAreCounted, BitsAreFew, OrderDoesNotMatter, TreesAreReadAgain};

/// What is written of settled keys is read as these keys, and just these bits are taken, whatever follows
/// them. This is the contract of a call that does nothing.
pub fn trees_are_read_again()
    ensures { TreesAreReadAgain }
{}

/// The bits of a tree are the same in whatever order the keys stand. This is the contract of a call that
/// does nothing.
pub fn order_does_not_matter()
    ensures { OrderDoesNotMatter }
{}

/// How many split bits and rest bits there are for keys of one length, and how many there are at most. This is
/// the contract of a call that does nothing.
pub fn bits_are_counted()
    ensures counted { BitsAreCounted }
    ensures few { BitsAreFew }
{}
