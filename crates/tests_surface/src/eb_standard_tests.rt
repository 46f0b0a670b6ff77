//! Symbols of worked surfaces and their bytes.

use corner_table::Symbol;
use eb_standard::{SymbolReader, pack};

/// The walk over a ring with a hole.
static RING: [Symbol; 6] = [
    Symbol::S,
    Symbol::L,
    Symbol::R,
    Symbol::L,
    Symbol::R,
    Symbol::E,
];

#[test]
fn packs_a_tetrahedron(rt: HostRuntime) {
    let walk = [Symbol::C, Symbol::R, Symbol::E];
    let bytes = pack(rt.alloc(), &walk).expect(&rt, "room");
    assert!(&rt; bytes.as_slice() == [0x2f].as_slice());
}

#[test]
fn packs_and_reads_a_ring(rt: HostRuntime) {
    let packed = pack(rt.alloc(), &RING).expect(&rt, "room");
    assert!(&rt; packed.as_slice() == [0xef, 0xba, 0x00].as_slice());
    let mut reader = SymbolReader::new(packed.as_slice());
    for symbol in RING.iter().rev() {
        assert!(&rt; reader.next() == Some(*symbol));
    }
    // Six bits 0 are left, and then a longer symbol whose bits aren't all there.
    for _ in 0..6 {
        assert!(&rt; reader.next() == Some(Symbol::C));
    }
    assert!(&rt; reader.next() == None);
}

#[test]
fn reads_no_symbol_of_too_few_bits(rt: HostRuntime) {
    let short = [0xff];
    let mut reader = SymbolReader::new(&short);
    assert!(&rt; reader.next() == Some(Symbol::E));
    assert!(&rt; reader.next() == Some(Symbol::E));
    assert!(&rt; reader.next() == None);
    assert!(&rt; reader.next() == None);
}
