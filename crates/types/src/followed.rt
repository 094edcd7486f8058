// A tile that viewers follow (02, P8): its state, and for each viewer how many packets are still to come.
ghost use Rattle.std.specs.Prelude.{◌≡◌, ◌-◌};
ghost use Rattle.types.specs.Totals.{started_with, total_for, with_total};

use crate::cursor::Cursor;
use crate::state::State;

#[derive(Clone, Copy, PartialEq, Eq)]
pub struct Followed {
    pub state: State,
    pub totals: [u32; Followed::PLACES],
}

impl Followed {
    // the places of the array by viewer
    pub const PLACES: usize = 8;

    // Every viewer at its start.
    pub fn started(state: State, total: u32) -> Self
        ensures { result ≡ started_with state total }
    {
        let totals = [total; Followed::PLACES];
        Followed { state, totals }
    }

    // A viewer's total; 0 for one that there is not.
    pub fn total(self, viewer: u32) -> u32
        ensures { result ≡ total_for self viewer }
    {
        self.totals.get(viewer as usize).copied().unwrap_or(0)
    }

    // The same with another total of a viewer.
    pub fn with_total(self, viewer: u32, total: u32) -> Self
        ensures { result ≡ with_total self viewer total }
    {
        let mut out = self;
        if viewer < Cursor::VIEWERS {
            out.totals[viewer as usize] = total;
        }
        out
    }

    // One fewer for a viewer, 0 staying 0.
    pub fn one_less(self, viewer: u32) -> Self
        ensures { result ≡ with_total self viewer (total_for self viewer - 1) }
    {
        self.with_total(viewer, self.total(viewer).saturating_sub(1))
    }
}
