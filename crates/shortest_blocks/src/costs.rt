//! What a run of bit lengths costs, about, in sixteenths of a bit.

ghost use Rattle.std.specs.Prelude.{◌≡◌, ℕ, ◌+◌, ◌-◌, ◌*◌, ◌/◌, ◌^◌, ◌<◌, ◌≤◌};
ghost use Rattle.shortest_blocks.specs.Costs.{cost_of_entry, cost_of_gap, cost_of_run, log16};

use drc_base::MAX_VALUES;

/// Sixteen times the binary logarithm of a number above 0, rounded down to a chord between powers of 2.
fn log16(x: u32) -> u64
    requires { 0 < x }
    ensures log { result ≡ log16 x }
    ensures most { result < 2 ^ 10 }
{
    let whole = x.ilog2();
    16 * u64::from(whole) + 16 * u64::from(x) / 2u64.pow(whole) - 16
}

/// What a table pays for a symbol that `count` of `all` are: two bytes where they are a 64th at least, else one.
fn cost_of_entry(all: u32, count: u32) -> u64
    ensures cost { result ≡ cost_of_entry all count }
    ensures most { result ≤ 256 }
{
    if 64 * u64::from(count) >= u64::from(all) {
        256
    } else {
        128
    }
}

/// What a table pays for the symbols from `first` up to below `symbol`, which aren't used: a byte where there are any.
fn cost_of_gap(first: u32, symbol: u32) -> u64
    ensures cost { result ≡ cost_of_gap first symbol }
    ensures most { result ≤ 128 }
{
    if symbol > first { 128 } else { 0 }
}

/// What `count` of `all` groups cost that are put together at the bit length `last`, where no length from `first` up to below it is
/// used: their values, their lengths, and what the table of lengths has for them.
pub fn cost_of_run(all: u32, comps: u32, first: u32, last: u32, count: u32) -> u64
    requires some { 0 < count }
    requires within { count ≤ all }
    requires small { count * comps ≤ MAX_VALUES }
    requires last { last ≤ 32 }
    ensures cost { result ≡ cost_of_run all comps first last count }
    ensures most { result < 2 ^ 43 }
{
    let values = 16 * (u64::from(count) * u64::from(comps) * u64::from(last));
    let lengths = u64::from(count) * log16(all).saturating_sub(log16(count));
    values + lengths + cost_of_entry(all, count) + cost_of_gap(first, last)
}
