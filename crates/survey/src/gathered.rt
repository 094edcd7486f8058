// What is gathered over the resolutions of a component: the largest precinct count, and on each axis the smallest and the largest exponent of a step. Every
// step of a component is its own times 2 to an exponent, so that these two tell the smallest step and whether every step fits 32 bits.
ghost use Rattle.std.specs.Prelude.{◌≡◌, ◌*◌, ◌^◌, ◌≤◌, ◌<◌, min};
ghost use Rattle.survey.specs.Passing.{start_exponents, with_exponent, fits_32, start_gathered, with_entry, sums_of};

use crate::axes::Axes;
use crate::capped;
use crate::sums::Sums;
use geometry::{axis, power};
use types::table::Entry;

// The exponents of steps on one axis.
#[derive(Clone, Copy)]
pub(crate) struct Exponents {
    // 32, with which no step fits, where there is none or each is larger: the number that `min` leaves alone
    pub low: u32,
    pub high: u32,
}

impl Exponents {
    // Of no step yet.
    fn start() -> Self
        ensures { result ≡ start_exponents }
    {
        Exponents { low: 32, high: 0 }
    }

    // With one more.
    fn with(self, exponent: u32) -> Self
        ensures { result ≡ with_exponent self exponent }
    {
        Exponents {
            low: self.low.min(exponent),
            high: self.high.max(exponent),
        }
    }

    // The steps of a component with step d fit 32 bits.
    fn fit(self, d: u32) -> bool
        requires { 1 ≤ d }
        ensures { result ≡ fits_32 (d * 2 ^ self.high) }
    {
        axis::step(d, 0, self.high) != 0
    }

    // The smallest of them, but for the largest 32-bit number.
    fn least(self, d: u32) -> u32
        requires { 1 ≤ d }
        ensures { result ≡ min 4294967295 (d * 2 ^ self.low) }
    {
        power::least(0xffff_ffff, axis::step(d, 0, self.low))
    }
}

#[derive(Clone, Copy)]
pub(crate) struct Gathered {
    // 65,537 where it is more
    pub most: u32,
    pub x: Exponents,
    pub y: Exponents,
}

impl Gathered {
    // Before the first resolution.
    pub(crate) fn start() -> Self
        ensures { result ≡ start_gathered }
    {
        Gathered {
            most: 0,
            x: Exponents::start(),
            y: Exponents::start(),
        }
    }

    // With a resolution of this level.
    pub(crate) fn with(self, level: u32, entry: Entry) -> Self
        requires { (level < 33) × (entry.pdx < 16) × (entry.pdy < 16) }
        ensures { result ≡ with_entry self level entry }
    {
        Gathered {
            most: self.most.max(capped::times(entry.width, entry.height)),
            x: self.x.with(entry.pdx + level),
            y: self.y.with(entry.pdy + level),
        }
    }

    // What it says of a component on these axes; the levels are in the exponents already.
    pub(crate) fn sums(self, axes: Axes) -> Sums
        requires { (1 ≤ axes.x.d) × (1 ≤ axes.y.d) }
        ensures { result ≡ sums_of axes self }
    {
        Sums {
            most: self.most,
            fit: self.x.fit(axes.x.d) & self.y.fit(axes.y.d),
            x_least: self.x.least(axes.x.d),
            y_least: self.y.least(axes.y.d),
        }
    }
}
