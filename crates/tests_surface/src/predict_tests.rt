//! The wrap near the ends of 32 bits, and the table of predictions, with ample memory.

use crate::sources::ListedCorrections;
use drc_base::Sequence;
use predict::{Flags, Prediction, Wrap, correct, restore_with_flags};
use std::process::Abort;
use std::test::Fail;

#[test]
fn values_near_the_end_come_back(rt: HostRuntime) -> Result<(), Fail> {
    let alloc = rt.alloc();
    let wrap = Wrap::new(2147483637, 2147483647).ok_or("refused")?;
    let values = [2147483647, 2147483637];
    assert!(rt; values.iter().all(|x| 2147483637 <= *x && *x <= 2147483647));
    let (symbols, flags) = correct(alloc, Prediction::Difference, &wrap, 1, None, &values)?;
    assert_eq!(rt; symbols.as_slice(), [1, 2].as_slice());
    let source = ListedCorrections::new(vec![in alloc; -1, 1]?);
    let restored = restore_with_flags(
        alloc,
        Prediction::Difference,
        &wrap,
        1,
        None,
        &flags,
        source,
    )?;
    let restored = restored.map_err(|_| "too few flags")?;
    assert_eq!(rt; restored.as_slice(), values.as_slice());
    Ok(())
}

#[test]
fn ranges_near_the_limit(rt: HostRuntime) {
    assert!(rt; Wrap::new(-0x4000_0000, 0x3fff_fffe).is_some());
    assert!(rt; Wrap::new(-0x4000_0000, 0x3fff_ffff).is_none());
    assert!(rt; Wrap::new(1, 0).is_none());
}

/// Predictions by their byte, their code and their word.
static PREDICTIONS: [(u8, i8, &str, Prediction); 4] = [
    (254, -2, "none", Prediction::Off),
    (0, 0, "diff", Prediction::Difference),
    (1, 1, "para", Prediction::Parallelogram),
    (4, 4, "multi", Prediction::Multi),
];

/// A prediction is found by its byte, its code and its word.
fn is_found(rt: &impl Abort, byte: u8, code: i8, word: &str, prediction: Prediction) {
    assert!(rt; Prediction::of_byte(byte) == Some(prediction), "{word}");
    assert!(rt; Prediction::of_code(code) == Some(prediction), "{word}");
    assert!(rt; Prediction::named(word) == Some(prediction), "{word}");
}

#[test]
fn predictions_are_found(rt: HostRuntime) {
    for (byte, code, word, prediction) in PREDICTIONS.iter() {
        is_found(&rt, *byte, *code, word, *prediction);
    }
    assert!(&rt; Prediction::of_byte(2).is_none() && Prediction::of_code(-1).is_none());
    assert!(&rt; Prediction::named("off").is_none() && Prediction::named("").is_none());
}
