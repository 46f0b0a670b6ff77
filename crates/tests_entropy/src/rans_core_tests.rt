//! The calls beside byte lists that another program gave, with ample memory.

ghost use Rattle.std.specs.Prelude.{◌≡◌, ◌≤◌, ◌<◌, ◌+◌, ◌^◌};

use crate::shown::{are_bytes, is_number};
use drc_base::Memory;
use rans_core::{Decoder, Encoder};
use std::alloc::Global;
use std::process::Abort;

/// The bytes of one symbol that is pushed again and again.
fn coded(alloc: Global, bits: u32, cum: u32, prob: u32, times: u32) -> Result<Vec<u8>, Memory>
    requires low { 12 ≤ bits }
    requires high { bits ≤ 20 }
    requires some { 0 < prob }
    requires within { cum + prob ≤ 2 ^ bits }
{
    let mut encoder = Encoder::new(alloc, bits);
    for _ in 0..times {
        encoder.push(cum, prob)?;
    }
    encoder.finish()
}

/// How often in a row the symbol is pulled, at most so many times.
fn pulls(bytes: &[u8], bits: u32, cum: u32, prob: u32, times: u32) -> u32
    requires low { 12 ≤ bits }
    requires high { bits ≤ 20 }
    requires within { cum + prob ≤ 2 ^ bits }
{
    let Some(mut decoder) = Decoder::start(bytes, bits) else {
        return 0;
    };
    for k in 0..times {
        let slot = decoder.slot();
        if slot < cum || slot - cum >= prob {
            return k;
        }
        decoder.take(cum, prob);
    }
    times
}

/// Asserts which bytes one symbol has that is pushed again and again.
fn codes(rt: &impl Abort, coded: Result<Vec<u8>, Memory>, wanted: &[u8]) {
    are_bytes(rt, coded.expect(rt, "room").as_slice(), wanted);
}

/// The bytes of a symbol that emits bytes before their end.
static LONG: [u8; 11] = [0, 0, 0xff, 0xff, 0x0f, 0xff, 0xff, 0xff, 0xff, 0xbf, 0xc4];

/// The end of the bytes has each tag in turn; the last line emits bytes before it.
#[test]
fn codes_one_symbol_many_times(rt: HostRuntime) {
    let alloc = rt.alloc();
    codes(&rt, coded(alloc, 12, 1, 4095, 3), &[0x0f]);
    codes(&rt, coded(alloc, 12, 7, 4089, 40), &[0x78, 0x45]);
    codes(&rt, coded(alloc, 12, 0, 1, 1), &[0x00, 0x00, 0xc0, 0x83]);
    codes(
        &rt,
        coded(alloc, 16, 65000, 536, 1),
        &[0x10, 0xfe, 0xe5, 0xc1],
    );
    codes(&rt, coded(alloc, 20, 1048575, 1, 3), &LONG);
}

#[test]
fn pulls_one_symbol_many_times(rt: HostRuntime) {
    is_number(&rt, pulls(&LONG, 20, 1048575, 1, 3) as u64, 3);
    is_number(&rt, pulls(&[0x78, 0x45], 12, 7, 4089, 40) as u64, 40);
    is_number(&rt, pulls(&[], 12, 7, 4089, 40) as u64, 0);
}
