// The next row or column of a tile at which something in play can be met: resolutions of a walk's components that have precincts and, for columns, that the row
// y meets. Beyond the last there is the end.
ghost use Rattle.std.specs.Prelude.{◌≡◌, ℕ, Option, ◌+◌, ◌<◌, ◌≤◌};
ghost use Rattle.std.specs.Option.{IfSome};
ghost use Rattle.packets.specs.Tile.{Sheet};
ghost use Rattle.packets.specs.InPlay.{next_before, play_x, play_y};
ghost use Rattle.packets.specs.Grid.{step_x, step_y};
ghost use Rattle.walks.specs.Prepared.{InPlay, SomePlay, range_by, at_row};
ghost use Rattle.walks.specs.InRow.{AtRow, SomeRow, RowStart, SomeRowStart};
ghost use Rattle.walks.specs.Nexts.{Among, Plays, AnswersBy, step_of, nearer_by};

use crate::by_resolution::ByResolution;
use crate::cell::row_at;
use crate::prepared::Prepared;
use crate::walk::Walk;

// The distance from z to the next multiple of a step, if there is a step and that is less.
pub(crate) fn nearer(best: u32, step: Option<u32>, z: u32) -> u32
    requires { IfSome step (λ n. 1 ≤ n) }
    ensures { result ≡ nearer_by step z best }
{
    match step {
        Some(n) => best.min(n - z % n),
        None => best,
    }
}

// The next multiple after z of one of the steps of a walk's resolutions and components, and beyond the last the end.
fn next_by<F: Fn(u32, u32) -> Option<u32>>(w: Walk, z: u32, end: u32, step: F) -> u32
    requires before { z < end }
    requires asked { (r c : ℕ) → Among w r c → F.pre step r c }
    requires positive { (r c : ℕ) (o : Option ℕ) → Among w r c → F.post step r c o → IfSome o (λ n. 1 ≤ n) }
    ensures { (s : Plays) → AnswersBy w (F.post step) s → result ≡ next_before end (range_by w.resno0 w.resno1 w.compno0 w.compno1) s.play s.step z }
{
    let mut best = end - z;
    for c in w.compno0..w.compno1 {
        for r in w.resno0..w.resno1 {
            best = nearer(best, step(r, c), z);
        }
    }
    z + best
}

// The step along y of component c at resolution r, if it has precincts.
pub(crate) fn row_step(prep: &ByResolution<Prepared>, r: u32, c: u32) -> Option<u32>
    requires { SomePlay prep.now r (r + 1) c (c + 1) }
    ensures is { (s : Sheet) → InPlay s prep.now r (r + 1) c (c + 1) → result ≡ step_of (play_y s c r) (step_y s c r) }
    ensures positive { IfSome result (λ n. 1 ≤ n) }
{
    let p = prep.at(r, c).kept()?;
    Some(p.y.step)
}

// The step along x of component c at resolution r, if a row meets a precinct; first tells what it meets (cell::row_at).
pub(crate) fn column_step(
    prep: &ByResolution<Prepared>,
    first: Option<u32>,
    r: u32,
    c: u32,
) -> Option<u32>
    requires { SomeRowStart prep.now first r c }
    ensures is { (s : Sheet) (y : _) → RowStart s prep.now first r c y → result ≡ step_of (play_x s (at_row y) c r) (step_x s c r) }
    ensures positive { IfSome result (λ n. 1 ≤ n) }
{
    first?;
    let p = prep.at(r, c).kept()?;
    Some(p.x.step)
}

pub(crate) fn next_row(prep: &ByResolution<Prepared>, w: Walk, y: u32) -> u32
    requires { (y < w.ty1) × SomePlay prep.now w.resno0 w.resno1 w.compno0 w.compno1 }
    ensures { (s : Sheet) → InPlay s prep.now w.resno0 w.resno1 w.compno0 w.compno1 → result ≡ next_before w.ty1 (range_by w.resno0 w.resno1 w.compno0 w.compno1) (play_y s) (step_y s) y }
{
    next_by(w, y, w.ty1, |r, c| row_step(prep, r, c))
}

pub(crate) fn next_column(prep: &ByResolution<Prepared>, w: Walk, y: u32, x: u32) -> u32
    requires { (x < w.tx1) × SomeRow prep.now w.resno0 w.resno1 w.compno0 w.compno1 y }
    ensures { (s : Sheet) → AtRow s prep.now w.resno0 w.resno1 w.compno0 w.compno1 y → result ≡ next_before w.tx1 (range_by w.resno0 w.resno1 w.compno0 w.compno1) (play_x s (at_row y)) (step_x s) x }
{
    next_by(
        w,
        x,
        w.tx1,
        |r, c| column_step(prep, row_at(prep, r, c, y), r, c),
    )
}
