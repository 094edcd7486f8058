// A resolution of a sound state: its entry of the table, and the tile's two axes as it sees them.
ghost use Rattle.std.specs.Prelude.{◌≡◌};
ghost use Rattle.packets.specs.Table.{sheet_at};
ghost use Rattle.soundness.specs.Reached.{Reached, sides_of};

use geometry::axis::Line;
use types::state::State;
use types::table::{Entry, entries};

#[derive(Clone, Copy)]
pub struct Sides {
    pub entry: Entry,
    pub x: Line,
    pub y: Line,
}

impl Sides {
    // Those of resolution r of component c.
    pub fn of(st: State, table: &[u8], c: u32, r: u32) -> Self
        requires { Reached st table.now c r }
        ensures { result ≡ sides_of (sheet_at st table.now) c r }
    {
        let i = c as usize;
        let comps = st.comps;
        let before = entries(&comps, i);
        let entry = Entry::at(table, before + (r as usize));
        let comp = comps[i];
        let level = comp.resolutions - 1 - r;
        Sides {
            entry,
            x: Line {
                t0: st.tx0,
                t1: st.tx1,
                d: comp.dx,
                level,
                pd: entry.pdx,
            },
            y: Line {
                t0: st.ty0,
                t1: st.ty1,
                d: comp.dy,
                level,
                pd: entry.pdy,
            },
        }
    }
}
