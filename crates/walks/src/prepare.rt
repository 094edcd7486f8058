// What the walks by points need, prepared once for each component and resolution (specs Prepare).
ghost use Rattle.std.specs.Prelude.{◌≡◌, ℕ, List, cond, ◌%◌, ◌^◌, ltb, eqb};
ghost use Rattle.packets.specs.Meaning.{Sound};
ghost use Rattle.walks.specs.ByResolution.{IsBlank};
ghost use Rattle.walks.specs.FromSound.{AllFilled};
ghost use Rattle.walks.specs.Prepared.{unprepared};
ghost use Rattle.walks.specs.Prepare.{side_of, along_by, sides_of, prepared_by};

use crate::by_resolution::ByResolution;
use crate::entries::{Making, make_all};
use crate::prepared::{Along, Prepared};
use geometry::axis::Axis;
use geometry::{axis, power};
use types::state::State;
use types::table::Entry;

// The tile's start where it lies inside a precinct, else what no point is: a number, so that a hit is one comparison.
fn start(t: u32, low: u32, pd: u32) -> u32
    ensures { result ≡ cond (eqb (low % 2 ^ pd) 0) 4294967295 t }
{
    if power::uneven(low, pd) { t } else { u32::MAX }
}

// The width that is shown: 0 where there is no precinct.
fn shown(wide: u32, count: u32) -> u32
    ensures { result ≡ cond (ltb 0 count) wide 0 }
{
    if count == 0 { 0 } else { wide }
}

// A component along one axis of the tile, and where the tile starts.
#[derive(Clone, Copy)]
struct Side {
    t: u32,
    axis: Axis,
}

impl Side {
    // Nothing here goes by where the tile ends.
    fn of(t: u32, d: u32) -> Self
        ensures { result ≡ side_of t d }
    {
        Side {
            t,
            axis: Axis::of(t, t, d),
        }
    }

    // A resolution's numbers along it; the step is 0 where it does not fit.
    fn along(self, level: u32, pd: u32) -> Along
        ensures { result ≡ along_by self level pd }
    {
        let a = self.axis;
        let r = a.at(level);
        let columns = r.columns(pd);
        Along {
            step: axis::step(a.d, level, pd),
            start: start(self.t, r.r0, pd),
            first: columns.first,
        }
    }
}

// A component along both.
#[derive(Clone, Copy)]
struct Sides {
    x: Side,
    y: Side,
}

impl Making for Sides {
    type Made = Prepared;

    ghost of = { sides_of };

    ghost made = { prepared_by };

    fn of(st: &State, c: u32) -> Self {
        let i = c as usize;
        let comp = st.comps[i];
        Sides {
            x: Side::of(st.tx0, comp.dx),
            y: Side::of(st.ty0, comp.dy),
        }
    }

    fn make(self, level: u32, e: Entry) -> Prepared {
        Prepared {
            width: shown(e.width, e.width * e.height),
            x: self.x.along(level, e.pdx),
            y: self.y.along(level, e.pdy),
        }
    }
}

// Those of a sound state.
pub(crate) fn prepare(prep: &mut ByResolution<Prepared>, table: &[u8], st: State)
    requires sound { (marks : List ℕ) × Sound st table.now marks }
    requires blank { IsBlank unprepared prep.old }
    ensures { AllFilled st table.now prep.new }
{
    make_all::<Sides>(prep, table, &st);
}
