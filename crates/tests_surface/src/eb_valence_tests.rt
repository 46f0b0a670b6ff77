//! Lists of worked surfaces, noted and read.

ghost use Rattle.std.specs.Prelude.{◌≡◌, ◌<◌};

use corner_table::{Steps, Symbol};
use drc_base::{Kind, Memory};
use eb_valence::{ContextLists, ContextReader, contexts_of, kept_number};
use std::alloc::{AllocError, Global};
use std::marker::Brand;
use std::process::Abort;
use std::sync::ledger::{Blank, Ledger};
use std::test::Fail;
use worked_surfaces::TORUS_EVENTS;

/// Compares the lists of all contexts.
fn has_lists(rt: &impl Abort, lists: &ContextLists, wanted: &[&[u32]; 6]) {
    for context in 0..6 {
        assert!(rt; lists.list(context) == wanted[context]);
    }
}

/// The lists of no symbols.
static NO_LISTS: [&[u32]; 6] = [&[], &[], &[], &[], &[], &[]];

/// The lists of a tetrahedron.
static TETRAHEDRON_LISTS: [&[u32]; 6] = [&[3], &[0], &[], &[], &[], &[]];

/// The lists of a torus.
static TORUS_LISTS: [&[u32]; 6] = [&[1, 1, 2, 4], &[1, 3], &[2], &[3], &[0, 0, 0, 0], &[]];

/// Notes the symbols of worked surfaces, and compares their lists.
fn notes<Count: Ledger>(rt: &impl Abort, alloc: Global, blank: Blank) -> Result<(), Memory>
    requires name { blank.name ≡ Count.name }
    requires parts { blank.parts ≡ Count.parts }
    requires some { 0 < Count.parts }
{
    use Symbol::{C, E, L, R, S};
    let mut steps = Steps::<Count>::new(blank);
    let none = contexts_of(alloc, &[], &[], &mut steps)?;
    has_lists(rt, &none, &NO_LISTS);
    let tetrahedron = contexts_of(alloc, &[C, R, E], &[], &mut steps)?;
    has_lists(rt, &tetrahedron, &TETRAHEDRON_LISTS);
    let torus = contexts_of(
        alloc,
        &[C, C, C, C, R, S, S, L, R, S, L, E, E],
        &TORUS_EVENTS,
        &mut steps,
    )?;
    has_lists(rt, &torus, &TORUS_LISTS);
    Ok(())
}

#[test]
fn notes_contexts_of_surfaces(rt: HostRuntime) -> Result<(), Fail> {
    notes::<Brand>(&rt, rt.alloc(), Blank::new(1))?;
    Ok(())
}

/// Lists of symbols; two have a number in front that stands for none.
fn worked(alloc: Global) -> Result<ContextReader, AllocError> {
    Ok(ContextReader::new([
        vec![in alloc; 5, 1, 3]?,
        vec![in alloc; 0]?,
        Vec::new(alloc),
        vec![in alloc; 255]?,
        Vec::new(alloc),
        vec![in alloc; 4, 2]?,
    ]))
}

/// The degrees that are asked for in turn, and what is answered to each.
static ANSWERS: [(Option<u32>, Result<Symbol, Kind>); 14] = [
    (None, Ok(Symbol::E)),
    (Some(2), Ok(Symbol::R)),
    (Some(0), Ok(Symbol::S)),
    (Some(3), Ok(Symbol::C)),
    (Some(3), Err(Kind::ContextEmpty)),
    (Some(4), Err(Kind::ContextEmpty)),
    (Some(7), Ok(Symbol::L)),
    (Some(900), Ok(Symbol::E)),
    (Some(8), Err(Kind::ContextEmpty)),
    (Some(1), Err(Kind::BadSymbol)),
    (Some(2), Err(Kind::BadSymbol)),
    (Some(5), Err(Kind::BadSymbol)),
    (Some(5), Err(Kind::BadSymbol)),
    (None, Ok(Symbol::E)),
];

#[test]
fn reads_from_the_backs(rt: HostRuntime) -> Result<(), Fail> {
    let mut reader = worked(rt.alloc())?;
    for (degree, symbol) in ANSWERS.iter() {
        assert!(&rt; reader.next(*degree) == *symbol);
    }
    Ok(())
}

/// Numbers, and the bytes that they are kept as.
static KEPT: [(u32, u8); 6] = [
    (0, 0),
    (4, 4),
    (255, 255),
    (256, 255),
    (259, 255),
    (u32::MAX, 255),
];

#[test]
fn keeps_numbers_up_to_the_cap(rt: HostRuntime) {
    for (number, kept) in KEPT.iter() {
        assert!(&rt; kept_number(*number) == *kept);
    }
}
