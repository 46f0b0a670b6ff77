//! The parts of a line.

ghost use Rattle.std.specs.Prelude.{◌≡◌, ◌++◌, ◌∷◌, decimal, OnOk};
ghost use Rattle.std.specs.List.{flat_map};
ghost use Rattle.drc_info.specs.InfoText.{field};

use decimal_text::append_spaced;
use drc_base::Memory;

/// Appends a word and the numbers behind it.
pub fn put_field(out: &mut Vec<u8>, word: &[u8], numbers: &[u64]) -> Result<(), Memory>
    ensures { OnOk result (out.new.items ≡ out.old.items ++ field word.now numbers.now) }
{
    out.extend_from_slice(word)?;
    put_numbers(out, numbers)
}

/// Appends numbers, each after a space.
fn put_numbers(out: &mut Vec<u8>, numbers: &[u64]) -> Result<(), Memory>
    ensures { OnOk result (out.new.items ≡ out.old.items ++ flat_map (λ n. 32 ∷ decimal n) numbers.now) }
{
    for n in numbers {
        append_spaced(out, *n)?;
    }
    Ok(())
}
