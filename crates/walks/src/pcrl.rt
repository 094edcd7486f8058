// PCRL: y, x, component, resolution, layer (T.800 B.12.1.4).
ghost use Rattle.std.specs.Prelude.{◌≡◌, ◌≤◌};
ghost use Rattle.laws.specs.Runs.{seek};
ghost use Rattle.packets.specs.Tile.{Sheet, index_of};
ghost use Rattle.types.specs.declared.order.Range.{Range};
ghost use Rattle.walks.specs.Walk.{answer_of, Ready, SomeReady};
ghost use Rattle.walks.specs.Pcrl.{entry_at};

use crate::by_resolution::ByResolution;
use crate::cell::cell_at;
use crate::next::{next_column, next_row};
use crate::prepared::Prepared;
use crate::walk::Walk;
use types::cursor::Position;
use types::mark::is_free;

// The first free position from a place on: from its row, column, component, resolution and layer.
pub(crate) fn pcrl(
    marks: &[u8],
    prep: &ByResolution<Prepared>,
    w: Walk,
    from: Position,
) -> Option<Position>
    requires some_ready { SomeReady prep.now w marks.now }
    requires ty0_le_from { (w.ty0 ≤ from.y) × (w.tx0 ≤ from.x) × (w.compno0 ≤ from.compno) × (w.resno0 ≤ from.resno) }
    ensures { (s : Sheet) (g : Range) → Ready s g prep.now w marks.now → answer_of result ≡ seek w.viewer (index_of s.st) marks.now (entry_at from s g) }
{
    // where the loops start: at the place, and when they come again at their first numbers
    let mut at = from;
    let mut found = None;
    let mut y = at.y;
    // a while: y jumps to the next row in which something is met, and x to the next column
    'search: while y < w.ty1 {
        let mut x = at.x;
        'xs: while x < w.tx1 {
            'cs: for c in at.compno..w.compno1 {
                'rs: for r in at.resno..w.resno1 {
                    if let Some(k) = cell_at(prep, r, c, x, y) {
                        'ls: for l in at.layno..w.layno1 {
                            let p = Position {
                                layno: l,
                                resno: r,
                                compno: c,
                                precno: k,
                                x,
                                y,
                            };
                            if is_free(marks, w.index(p), w.viewer) {
                                found = Some(p);
                                break 'search;
                            }
                        }
                    }
                    at = w.first();
                }
                at = w.first();
            }
            at = w.first();
            x = next_column(prep, w, y, x);
        }
        at = w.first();
        y = next_row(prep, w, y);
    }
    found
}
