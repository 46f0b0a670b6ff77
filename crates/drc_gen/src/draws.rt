//! Numbers drawn from a seed: a linear congruential generator modulo 2^64 of which the upper ten bits
//! are taken (this project's choice; the multiplier stands in Knuth, The Art of Computer Programming,
//! volume 2, section 3.3.4).

ghost use Rattle.std.specs.Prelude.{◌≡◌, ◌/◌, ◌^◌, ◌<◌};
ghost use Rattle.drc_gen.specs.Draws.{state_behind};

/// What a state is multiplied by.
const MULTIPLIER: u64 = 6364136223846793005;

/// What is added to the product.
const INCREMENT: u64 = 1442695040888963407;

/// The lower bits of a state that a draw leaves out.
const DROPPED_BITS: u32 = 54;

/// A generator of draws.
#[derive(Drop)]
pub(crate) struct Draws {
    pub(crate) state: u64,
}

impl Draws {
    /// The draws of a seed.
    pub(crate) fn new(seed: u64) -> Draws
        ensures { result.state ≡ seed }
    {
        Draws { state: seed }
    }

    /// The next draw, a number below 1024.
    pub(crate) fn next(&mut self) -> u32
        ensures state { self.new.state ≡ state_behind self.old.state }
        ensures value { result ≡ self.new.state / 2 ^ 54 }
        ensures small { result < 1024 }
    {
        let product = self.state.wrapping_mul(MULTIPLIER);
        self.state = product.wrapping_add(INCREMENT);
        (self.state >> DROPPED_BITS) as u32
    }
}
