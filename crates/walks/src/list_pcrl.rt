// The listing in the order PCRL: y, x, component, resolution, layer (T.800 B.12.1.4).
ghost use Rattle.std.specs.Prelude.{◌≡◌};
ghost use Rattle.packets.specs.Tile.{Sheet};
ghost use Rattle.types.specs.declared.order.Range.{Range};
ghost use Rattle.packets.specs.Grid.{step_x};
ghost use Rattle.packets.specs.InPlay.{next_before, play_x};
ghost use Rattle.walks.specs.Prepared.{range_by, at_row};
ghost use Rattle.walks.specs.Pcrl.{wholly, point};
ghost use Rattle.walks.specs.Listing.{SomeListing, Lists, ReadyBy};
ghost use Rattle.walks.specs.Layers.{PointedAt};

use crate::by_resolution::ByResolution;
use crate::list::Run;
use crate::next::{column_step, nearer};
use crate::prepared::Prepared;
use crate::row::{Firsts, fill_row};
use crate::walk::Walk;
use types::cursor::Position;

impl Run<'_> {
    // Lists every packet that is met at (x, y); answers the next column.
    fn list_point(
        &mut self,
        prep: &ByResolution<Prepared>,
        row: &Firsts,
        w: Walk,
        x: u32,
        y: u32,
    ) -> u32
        requires { SomeListing (PointedAt prep.now row.now w x y) (point y x w.compno0 w.resno0 0) self.old }
        ensures lists { Lists (PointedAt prep.now row.now w x y) (point y x w.compno0 w.resno0 0) self.old self.new }
        ensures next { (s : Sheet) (g : Range) → PointedAt prep.now row.now w x y s g self.old.marks.now
            → result ≡ next_before w.tx1 (range_by w.resno0 w.resno1 w.compno0 w.compno1) (play_x s (at_row y)) (step_x s) x }
    {
        let mut best = w.tx1 - x;
        'cs: for c in w.compno0..w.compno1 {
            'rs: for r in w.resno0..w.resno1 {
                let first = row.at(r, c);
                best = nearer(best, column_step(prep, first, r, c), x);
                let p = Position {
                    layno: 0,
                    resno: r,
                    compno: c,
                    precno: 0,
                    x,
                    y,
                };
                self.list_cell(prep, first, w, p);
            }
        }
        x + best
    }

    // Lists every packet of the ranges. The row is working space, lent so that a run clears one: RPCL and CPRL come here for each resolution or component.
    #[inline(always)]
    pub(crate) fn list_pcrl(&mut self, row: &mut Firsts, prep: &ByResolution<Prepared>, w: Walk)
        requires { SomeListing (ReadyBy prep.now w) (wholly w) self.old }
        ensures { Lists (ReadyBy prep.now w) (wholly w) self.old self.new }
    {
        let mut y = w.ty0;
        // kept as while: y and x go on to the next row and column at which something is met, which are computed on the way
        'ys: while y < w.ty1 {
            let below = fill_row(row, prep, w, y);
            let mut x = w.tx0;
            'xs: while x < w.tx1 {
                x = self.list_point(prep, row, w, x, y);
            }
            y = below;
        }
    }
}
