// What is prepared for a resolution of a component, and what it answers at a point.
ghost use Rattle.std.specs.Prelude.{◌≡◌, ◌/◌, ◌≤◌};
ghost use Rattle.walks.specs.Prepared.{hit_by, column_by, unprepared, kept};

use crate::by_resolution::Blank;

// A resolution along one axis: its step, the tile's start where it lies inside a precinct (else what no point is), and its first column or row.
#[derive(Clone, Copy)]
pub(crate) struct Along {
    pub step: u32,
    pub start: u32,
    pub first: u32,
}

// A resolution: its width in precincts, and both axes.
// kept with a width of 0 for one without precincts: an Option in each place takes 2 kB more, which each step would clear; tried and slower
#[derive(Clone, Copy)]
pub(crate) struct Prepared {
    pub width: u32,
    pub x: Along,
    pub y: Along,
}

impl Blank for Prepared {
    ghost BLANK = { unprepared };

    const BLANK: Prepared = Prepared {
        width: 0,
        x: Along {
            step: 0,
            start: 0,
            first: 0,
        },
        y: Along {
            step: 0,
            start: 0,
            first: 0,
        },
    };
}

impl Prepared {
    // None without precincts.
    pub(crate) fn kept(self) -> Option<Self>
        ensures { result ≡ kept self }
    {
        if self.width == 0 { None } else { Some(self) }
    }
}

impl Along {
    // A coordinate meets a precinct's start: it is a multiple of the step, or the tile's start inside a precinct.
    pub(crate) fn hits(self, z: u32) -> bool
        requires { 1 ≤ self.step }
        ensures { result ≡ hit_by self z }
    {
        z % self.step == 0 || z == self.start
    }

    // The column or row that is met there, counted from the first.
    pub(crate) fn column(self, z: u32) -> u32
        requires { (1 ≤ self.step) × (self.first ≤ z / self.step) }
        ensures { result ≡ column_by self z }
    {
        z / self.step - self.first
    }
}
