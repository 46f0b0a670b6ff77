//! The wrap transform of corrections.

ghost use Rattle.std.specs.Prelude.{◌≡◌, ◌↔◌, ◌≤ℤ◌, ◌+ℤ◌, IfSome, IsSome};
ghost use Rattle.predict.specs.Wrap.{CanWrap, HasEnds, least_correction, greatest_correction, clipped, wrapped, halved, restored_value, correction_of};

use crate::wholes::{difference, sum, sum_within, wrapping_sum};
use std::marker::Model;

/// The range in which the values of an attribute lie. A value is restored from its prediction,
/// moved into the range, plus its correction, brought back into the range by one span.
#[derive(Drop)]
pub struct Wrap {
    low: i32,
    high: i32,
    span: u32,
}

impl Model for Wrap {
    ghost use Rattle.std.specs.Prelude.{◌≡◌};
    ghost use Rattle.predict.specs.Wrap.{Range, CanWrap, span_of};

    ghost Value = { Range };

    ghost view = { λ s. record { low = s.low; high = s.high } };

    ghost invariant = { λ s. CanWrap (record { low = s.low; high = s.high })
        × (s.span ≡ span_of (record { low = s.low; high = s.high })) };
}

impl Wrap {
    /// The range from `min` to `max`. None exactly where `min` is above `max`, or `max - min` is
    /// 2^31 - 1 or more.
    pub fn new(min: i32, max: i32) -> Option<Wrap>
        ensures exact { IsSome result ↔ CanWrap (record { low = min; high = max }) }
        ensures range { IfSome result (λ w. w ≡ record { low = min; high = max }) }
    {
        let reach = max as i64 - min as i64;
        if reach < 0 || reach >= 0x7fff_ffff {
            return None;
        }
        Some(Wrap {
            low: min,
            high: max,
            span: reach as u32 + 1,
        })
    }

    /// The same range. Loops that write a slice keep one of their own, in registers.
    pub fn copy(&self) -> Wrap
        ensures same { result ≡ self.now }
        ensures can_wrap { CanWrap self.now }
        ensures ends { HasEnds self.now }
    {
        Wrap {
            low: self.low,
            high: self.high,
            span: self.span,
        }
    }

    /// The prediction, moved into the range.
    fn clipped(&self, prediction: i32) -> i32
        ensures value { result ≡ clipped self.now prediction }
        ensures above { self.now.low ≤ℤ result }
        ensures below { result ≤ℤ self.now.high }
        ensures can_wrap { CanWrap self.now }
    {
        let low = self.low;
        let high = self.high;
        if prediction < low {
            low
        } else if prediction > high {
            high
        } else {
            prediction
        }
    }

    /// What brings a sum back into the range: nothing, or a span up or down.
    fn way_back(&self, sum: i64) -> i32
        ensures { sum +ℤ result ≡ wrapped self.now sum }
    {
        if sum > self.high as i64 {
            -(self.span as i32)
        } else if sum < self.low as i64 {
            self.span as i32
        } else {
            0
        }
    }

    /// The value at this prediction and correction.
    pub fn restored(&self, prediction: i32, correction: i32) -> i32
        ensures { result ≡ restored_value self.now prediction correction }
    {
        let base = self.clipped(prediction);
        let back = self.way_back(sum(base, correction));
        let value = wrapping_sum(base, correction);
        wrapping_sum(value, back)
    }

    /// What brings a difference to at most half a span: nothing, or a span up or down.
    fn way_to_half(&self, apart: i32) -> i32
        ensures { apart +ℤ result ≡ halved self.now apart }
    {
        let least = -((self.span / 2) as i32);
        let greatest = ((self.span - 1) / 2) as i32;
        if apart < least {
            self.span as i32
        } else if apart > greatest {
            -(self.span as i32)
        } else {
            0
        }
    }

    /// The correction of this value at this prediction, of at most half a span.
    pub fn correction(&self, prediction: i32, value: i32) -> i32
        requires above { self.now.low ≤ℤ value }
        requires below { value ≤ℤ self.now.high }
        ensures correction { result ≡ correction_of self.now prediction value }
        ensures least { least_correction self.now ≤ℤ result }
        ensures greatest { result ≤ℤ greatest_correction self.now }
        ensures restores { restored_value self.now prediction result ≡ value }
    {
        let apart = difference(value, self.clipped(prediction));
        sum_within(apart, self.way_to_half(apart))
    }
}
