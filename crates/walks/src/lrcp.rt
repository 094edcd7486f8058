// LRCP: layer, resolution, component, precinct (T.800 B.12.1.1).
ghost use Rattle.std.specs.Prelude.{◌≡◌, ◌≤◌};
ghost use Rattle.laws.specs.Runs.{seek};
ghost use Rattle.packets.specs.Tile.{Sheet, index_of};
ghost use Rattle.types.specs.declared.order.Range.{Range};
ghost use Rattle.walks.specs.Walk.{answer_of, Counted, SomeCounted};
ghost use Rattle.walks.specs.Lrcp.{entry_at};

use crate::by_resolution::ByResolution;
use crate::walk::Walk;
use types::cursor::Position;
use types::mark::is_free;

// The first free position from a place on: from its layer, resolution, component and precinct.
pub(crate) fn lrcp(
    marks: &[u8],
    counts: &ByResolution<u32>,
    w: Walk,
    from: Position,
) -> Option<Position>
    requires some_counted { SomeCounted counts.now w marks.now }
    requires resno0_le_from { (w.resno0 ≤ from.resno) × (w.compno0 ≤ from.compno) }
    ensures { (s : Sheet) (g : Range) → Counted s g counts.now w marks.now → answer_of result ≡ seek w.viewer (index_of s.st) marks.now (entry_at from s g) }
{
    // where the loops start: at the place, and when they come again at their first numbers
    let mut at = from;
    let mut found = None;
    'search: for l in at.layno..w.layno1 {
        'rs: for r in at.resno..w.resno1 {
            'cs: for c in at.compno..w.compno1 {
                let count = counts.at(r, c);
                'ks: for k in at.precno..count {
                    let p = Position {
                        layno: l,
                        resno: r,
                        compno: c,
                        precno: k,
                        x: 0,
                        y: 0,
                    };
                    if is_free(marks, w.index(p), w.viewer) {
                        found = Some(p);
                        break 'search;
                    }
                }
                at = w.first();
            }
            at = w.first();
        }
        at = w.first();
    }
    found
}
