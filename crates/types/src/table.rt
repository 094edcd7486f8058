// The table (01, 'The table is lent bytes'): how many entries stand before a component's, and what an entry says.
ghost use Rattle.std.specs.Prelude.{◌≡◌, ◌<◌, min, get_or};
ghost use Rattle.laws.specs.Below.{sum_below};
ghost use Rattle.types.specs.State.{no_component};
ghost use Rattle.types.specs.Entries.{entry_at};

use crate::state::{Component, State};

// The entry of a resolution.
#[derive(Clone, Copy, Default)]
pub struct Entry {
    pub pdx: u32,
    pub pdy: u32,
    pub width: u32,
    pub height: u32,
}

impl Entry {
    pub const BYTES: usize = 16;

    // Entry i of a table, from 0; a word that is not there reads as 0.
    pub fn at(table: &[u8], i: usize) -> Self
        ensures { result ≡ entry_at table.now i }
    {
        if State::MAX_ENTRIES <= i {
            return Entry::default();
        }
        let w = words::four_at(table, Entry::BYTES * i);
        Entry {
            pdx: w.a,
            pdy: w.b,
            width: w.c,
            height: w.d,
        }
    }
}

// kept: of a field behind a reference the check does not know that it fits 32 bits; tried without, and the proof of `entries` did not close
fn wide(x: u32) -> usize
    ensures { (result ≡ x) × (result < 4294967296) }
{
    x as usize
}

// How many resolutions the first n components have, of 16 at most.
pub fn entries(comps: &[Component; State::COMPONENT_PLACES], n: usize) -> usize
    ensures { result ≡ sum_below (λ c. (get_or comps.now c no_component).resolutions) (min n 16) }
{
    let mut sum: usize = 0;
    for comp in &comps[..n.min(State::COMPONENT_PLACES)] {
        sum += wide(comp.resolutions);
    }
    sum
}
