//! The notes that a command leaves, each a line. They take no memory.

ghost use Rattle.std.specs.Prelude.{◌≡◌, ◌≤◌, ◌+◌, ◌++◌, length, codes, decimal};
ghost use Rattle.arrayvec.specs.ArrayString.{array_string_len};
ghost use Rattle.drc_app.specs.Notes.{refused_note, bad_word_note, verdict_note};

use arrayvec::ArrayString;
use drc_base::Fault;
use drc_verify::Verdict;
use itoa::Buffer;

/// A line of a note, of at most 64 bytes.
pub type Note = ArrayString<64>;

/// `refused`, the fault's word and its place.
pub fn refused(fault: Fault) -> Note
    ensures { result.bytes ≡ refused_note fault }
{
    let mut note = Note::new();
    note.push_str("refused ");
    note.push_str(fault.kind.word());
    note.push_str(" ");
    push_number(&mut note, fault.at);
    note.push_str("\n");
    note
}

/// `bad word` and its number.
pub fn bad_word(index: u64) -> Note
    ensures { result.bytes ≡ bad_word_note index }
{
    numbered("bad word ", index)
}

/// `not same`, what differs first, and its number; of a yes nothing.
pub fn unlike(verdict: Verdict) -> Note
    ensures { result.bytes ≡ verdict_note verdict }
{
    match verdict {
        Verdict::Same => Note::new(),
        Verdict::Heads => numbered("not same heads ", 0),
        Verdict::Rows(count) => numbered("not same rows ", count),
        Verdict::Row(row) => numbered("not same row ", row),
        Verdict::Pair(side) => numbered("not same pair ", side),
    }
}

/// A line of some words and a number.
fn numbered(words: &str, n: u64) -> Note
    requires { length words.now ≤ 20 }
    ensures { result.bytes ≡ words.now ++ decimal n ++ codes "\n" }
{
    let mut note = Note::new();
    note.push_str(words);
    push_number(&mut note, n);
    note.push_str("\n");
    note
}

/// Appends a number in decimal, of at most 20 digits.
fn push_number(note: &mut Note, n: u64)
    requires { array_string_len note.old + 20 ≤ 64 }
    ensures bytes { note.new.bytes ≡ note.old.bytes ++ decimal n }
    ensures len { array_string_len note.new ≤ array_string_len note.old + 20 }
{
    let mut buffer = Buffer::new();
    note.push_str(buffer.format(n));
}
