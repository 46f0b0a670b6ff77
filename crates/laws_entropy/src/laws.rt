//! What holds of the definitions themselves.

ghost use Rattle.laws_entropy.specs.Laws.{BitBlocksAreRead, SymbolBlocksAreRead, TablesAreRead};

/// The table for counts, which is the number of its symbols and their probabilities, is read as these
/// probabilities, with just its bytes, whatever follows it. This is the contract of a call that does nothing.
pub fn tables_are_read()
    ensures { TablesAreRead }
{}

/// The block of numbers of 32 bits, of which there are at most `MAX_VALUES` in groups of so many components, is
/// read as these numbers, with just its bytes, whatever follows it, whichever of the two schemes is written. This
/// is the contract of a call that does nothing.
pub fn symbol_blocks_are_read()
    ensures { SymbolBlocksAreRead }
{}

/// The block of fewer than 2^31 bits is read with just its bytes, whatever follows it, as one block whose first
/// bits are these. This is the contract of a call that does nothing.
pub fn bit_blocks_are_read()
    ensures { BitBlocksAreRead }
{}
