//! What holds of the definitions themselves.

ghost use Rattle.kd_points.specs.Laws.{FileBitsAreCounted, FilesAreReadAgain, KeysTellPoints};
ghost use Rattle.kd_points.specs.Rows.{OrderIsOne};

use kd_tree::bits_are_counted;

/// The key of each point of a cloud gives all integers of the point back, so that points with equal keys are
/// equal. This is the contract of a call that does nothing.
pub fn keys_tell_points()
    ensures { KeysTellPoints }
{}

/// The file of a cloud without a fault, whose numbers in the heads have 32 bits, is read, whatever bytes follow it,
/// as a cloud that is the same by the rows of the order: its point i is the point that row i names. This is the
/// contract of a call that does nothing.
pub fn files_are_read_again()
    ensures { FilesAreReadAgain }
{}

/// There is one order of the points of a cloud, by key and then by number: its row k names the point before
/// which k points come. This is the contract of a call that does nothing.
pub fn order_is_one()
    ensures { OrderIsOne }
{}

/// How many split bits and rest bits the file of a cloud has: for each box of two points or more that is divided,
/// the binary digits of its number of points; for each point that is alone in its box, the bits of its key that
/// are left. This is the contract of a call that does nothing.
pub fn file_bits_are_counted()
    ensures { FileBitsAreCounted }
{
    bits_are_counted();
}
