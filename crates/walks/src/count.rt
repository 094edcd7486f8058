// The number of precincts of each component at each resolution, counted once.
ghost use Rattle.std.specs.Prelude.{ℕ, List};
ghost use Rattle.packets.specs.Meaning.{Sound};
ghost use Rattle.walks.specs.ByResolution.{IsBlank};
ghost use Rattle.walks.specs.Made.{product};
ghost use Rattle.walks.specs.Counting.{AllCounted};

use crate::by_resolution::ByResolution;
use crate::entries::{Making, make_all};
use types::state::State;
use types::table::Entry;

// Counts the precincts of an entry.
#[derive(Clone, Copy)]
struct Count;

impl Making for Count {
    type Made = u32;

    ghost of = { λ st c. record {} };

    ghost made = { λ m level e. product e };

    fn of(_st: &State, _c: u32) -> Self {
        Count
    }

    fn make(self, _level: u32, e: Entry) -> u32 {
        e.width * e.height
    }
}

// Those of a sound state.
pub(crate) fn count_precincts(counts: &mut ByResolution<u32>, table: &[u8], st: &State)
    requires sound { (marks : List ℕ) × Sound st.now table.now marks }
    requires blank { IsBlank 0 counts.old }
    ensures { AllCounted st.now table.now counts.new }
{
    make_all::<Count>(counts, table, st);
}
