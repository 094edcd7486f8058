// One axis of the tile (01, 'Geometry' and 'Ranges and orders'): the bounds of a component, computed once, and of its resolutions, their precincts and the
// step from one to the next, and the points at which these are met. They are computed here and nowhere else. Every function answers for every argument.
ghost use Rattle.std.specs.Prelude.{◌≡◌, ◌+◌, ◌*◌, ◌%◌, ◌^◌, ◌==◌};
ghost use Rattle.geometry.specs.Line.{bound_of, column_of, meets_at};
ghost use Rattle.geometry.specs.Fitted.{fitted};
ghost use Rattle.geometry.specs.Axis.{axis_of, resolution_of, columns_of, cell_of, line_of, bounds_of};

use crate::{ceiling, power};

// A component: its bounds, and its step, XRsiz or YRsiz.
#[derive(Clone, Copy)]
pub struct Axis {
    pub c0: u32,
    pub c1: u32,
    pub d: u32,
}

// The bounds of a resolution.
#[derive(Clone, Copy)]
pub struct Resolution {
    pub r0: u32,
    pub r1: u32,
}

// The precincts of a resolution: the number of the first, counted from 0 on the resolution's grid, and how many there are.
#[derive(Clone, Copy)]
pub struct Columns {
    pub first: u32,
    pub count: u32,
}

// The tile from t0 to t1 as a resolution sees it: the component's step, the resolution's level and its precinct exponent.
#[derive(Clone, Copy)]
pub struct Line {
    pub t0: u32,
    pub t1: u32,
    pub d: u32,
    pub level: u32,
    pub pd: u32,
}

impl Axis {
    // The component of step d on a tile that goes from t0 to t1.
    pub fn of(t0: u32, t1: u32, d: u32) -> Self
        ensures { result ≡ axis_of t0 t1 d }
    {
        Axis {
            c0: ceiling::divided(t0, d),
            c1: ceiling::divided(t1, d),
            d,
        }
    }

    // Its resolution at this level.
    pub fn at(self, level: u32) -> Resolution
        ensures { result ≡ resolution_of self level }
    {
        Resolution {
            r0: ceiling::shifted(self.c0, level),
            r1: ceiling::shifted(self.c1, level),
        }
    }
}

impl Resolution {
    // Its precincts of 2^pd samples; an axis with no sample has none, and its first number is that of its start.
    pub fn columns(self, pd: u32) -> Columns
        ensures { result ≡ columns_of self pd }
    {
        let first = power::floored(self.r0, pd);
        if self.r1 <= self.r0 {
            return Columns { first, count: 0 };
        }
        let count = ceiling::shifted(self.r1, pd) - first;
        Columns { first, count }
    }

    // The samples of its precinct i, counted from the first; beyond the last there are none.
    fn precinct(self, pd: u32, i: u32) -> Resolution
        ensures { result ≡ cell_of self pd i }
    {
        let columns = self.columns(pd);
        if columns.count <= i {
            return Resolution {
                r0: self.r1,
                r1: self.r1,
            };
        }
        let cell = columns.first + i;
        Resolution {
            r0: self.r0.max(power::raised(cell, pd)),
            r1: power::least(self.r1, power::raised(cell + 1, pd)),
        }
    }
}

// From a precinct to the next in points of the grid; 0 where that does not fit 32 bits.
// kept as a number, not an Option: 0 has just the multiples among the points of a step that does not fit (theorem `fitted_multiple`), so it is used as it is.
pub fn step(d: u32, level: u32, pd: u32) -> u32
    ensures { result ≡ fitted (d * 2 ^ (pd + level)) }
{
    power::raised(d, pd.saturating_add(level))
}

impl Line {
    fn resolution(self) -> Resolution
        ensures { result ≡ bounds_of (line_of self) }
    {
        Axis::of(self.t0, self.t1, self.d).at(self.level)
    }

    // The samples of precinct i, counted from the first; beyond the last there are none.
    pub fn precinct(self, i: u32) -> Resolution
        ensures { result ≡ cell_of (bounds_of (line_of self)) self.pd i }
    {
        self.resolution().precinct(self.pd, i)
    }

    // The first sample at or after point x.
    fn sample(self, x: u32) -> u32
        ensures { result ≡ bound_of x self.d self.level }
    {
        ceiling::shifted(ceiling::divided(x, self.d), self.level)
    }

    // A precinct is met at x: a point of the tile where one starts, or where the tile does, inside one. A step of 0 has no multiple but 0.
    pub fn meets(self, x: u32) -> bool
        ensures { result ≡ meets_at (line_of self) x }
    {
        self.t0 <= x
            && x < self.t1
            && (x.is_multiple_of(step(self.d, self.level, self.pd))
                || x == self.t0 && power::uneven(self.sample(x), self.pd))
    }

    // The column, or row, of the precinct at point x, counted from the tile's first.
    pub fn column(self, x: u32) -> u32
        ensures { result ≡ column_of (line_of self) x }
    {
        let columns = self.resolution().columns(self.pd);
        power::floored(self.sample(x), self.pd).saturating_sub(columns.first)
    }
}
