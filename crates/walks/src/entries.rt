// What is made of the table's entries, one for each resolution of each component (specs Made).
ghost use Rattle.std.specs.Prelude.{◌≡◌, ℕ, ◌<◌, ◌≤◌};
ghost use Rattle.packets.specs.Tile.{level_of};
ghost use Rattle.walks.specs.Made.{product, AllEntries, InTable, MadeOf, entry_in};

use crate::by_resolution::ByResolution;
use types::state::State;
use types::table::Entry;

// What is made of the entries of one component.
pub(crate) trait Making: Copy {
    ghost use Rattle.types.specs.declared.state.State.{State};
    ghost use Rattle.types.specs.declared.table.Entry.{Entry};

    type Made: Copy;

    ghost of: { State → ℕ → Self };

    ghost made: { Self → ℕ → Entry → Self.Made };

    // For component c of a state.
    fn of(st: &State, c: u32) -> Self
        requires { c < 16 }
        ensures { result ≡ of st.now c };

    // Of the entry of a resolution at this level.
    fn make(self, level: u32, e: Entry) -> Self::Made
        requires { product e ≤ 65536 }
        ensures { result ≡ made self level e };
}

// What is made of all entries.
// kept as a lent array: an answer by value is copied at each step
pub(crate) fn make_all<M: Making>(all: &mut ByResolution<M::Made>, table: &[u8], st: &State)
    requires { AllEntries st.now table.now }
    ensures { MadeOf (InTable st.now) (λ c r. M.made (M.of st.now c) (level_of st.now c r) (entry_in st.now table.now c r)) all.old all.new }
{
    let mut base: usize = 0;
    for c in 0..st.components {
        let n = st.comps[c as usize].resolutions;
        let making = M::of(st, c);
        for r in 0..n {
            let e = Entry::at(table, base + r as usize);
            all.put(r, c, making.make(n - 1 - r, e));
        }
        base += n as usize;
    }
}
