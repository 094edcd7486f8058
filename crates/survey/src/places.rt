// Where the exponents of a component stand, in the records of a sheet or in the entries of a table, and where its words are kept.
ghost use Rattle.std.specs.Prelude.{◌≡◌, ◌+◌, ◌*◌, ◌<◌};
ghost use Rattle.survey.specs.Passing.{places_of, places_after};

use crate::Source;
use types::state::State;
use types::table::Entry;

// In bytes: the first exponents of a component, the way from a resolution to the next, and what stands between two components. In words: where those of its
// entries are kept.
#[derive(Clone, Copy)]
pub(crate) struct Places {
    pub first: usize,
    pub apart: usize,
    pub between: usize,
    pub to: usize,
}

impl Places {
    // Those of component 0. A record has 32 bytes, and its second word is the first exponent; the first resolution is record 2. An entry has 16 bytes.
    pub(crate) fn of(at: Source) -> Self
        ensures { result ≡ places_of at }
    {
        match at {
            Source::Records => Places {
                first: 68,
                apart: State::RECORD_BYTES,
                between: State::RECORD_BYTES,
                to: 0,
            },
            Source::Entries => Places {
                first: 0,
                apart: Entry::BYTES,
                between: 0,
                to: 0,
            },
        }
    }

    // Those of the next component, after one with n resolutions.
    pub(crate) fn after(self, n: u32) -> Self
        requires { (self.first + (self.apart * n + self.between) < 65536) × (self.to + 4 * n < 65536) }
        ensures { result ≡ places_after self n }
    {
        Places {
            first: self.first + (self.apart * (n as usize) + self.between),
            to: self.to + 4 * (n as usize),
            ..self
        }
    }
}
