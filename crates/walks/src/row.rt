// One row of a tile: which precincts it meets, noted once for each component and resolution.
ghost use Rattle.std.specs.Prelude.{◌≡◌, ◌<◌};
ghost use Rattle.packets.specs.Tile.{Sheet};
ghost use Rattle.packets.specs.InPlay.{next_before, play_y};
ghost use Rattle.packets.specs.Grid.{step_y};
ghost use Rattle.walks.specs.Prepared.{range_by};
ghost use Rattle.walks.specs.InRow.{AtRow, SomeRow, Row};

use crate::by_resolution::ByResolution;
use crate::cell::row_at;
use crate::next::{nearer, row_step};
use crate::prepared::Prepared;
use crate::walk::Walk;

// Of each component and resolution the first precinct that a row meets, if it meets one.
pub(crate) type Firsts = ByResolution<Option<u32>>;

// Notes it for the resolutions and components of a walk (cell::row_at); answers the next row at which one of them can be met, and beyond the last the end.
pub(crate) fn fill_row(row: &mut Firsts, prep: &ByResolution<Prepared>, w: Walk, y: u32) -> u32
    requires { (y < w.ty1) × SomeRow prep.now w.resno0 w.resno1 w.compno0 w.compno1 y }
    ensures { (s : Sheet) → AtRow s prep.now w.resno0 w.resno1 w.compno0 w.compno1 y → Row s row.new w.resno0 w.resno1 w.compno0 w.compno1 y × (result ≡ next_before w.ty1 (range_by w.resno0 w.resno1 w.compno0 w.compno1) (play_y s) (step_y s) y) }
{
    let mut best = w.ty1 - y;
    // kept beside next::next_by: these loops also write, and of what a closure writes at each turn its caller could prove nothing
    for c in w.compno0..w.compno1 {
        for r in w.resno0..w.resno1 {
            best = nearer(best, row_step(prep, r, c), y);
            row.put(r, c, row_at(prep, r, c, y));
        }
    }
    y + best
}
