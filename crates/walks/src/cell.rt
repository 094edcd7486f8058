// The precinct that is met at a point, from numbers prepared once for each component and resolution.
ghost use Rattle.std.specs.Prelude.{◌≡◌, ◌+◌};
ghost use Rattle.packets.specs.Tile.{Sheet};
ghost use Rattle.walks.specs.Prepared.{AtPoint, SomePoint, cell_of};
ghost use Rattle.walks.specs.InRow.{row_of, AtRow, SomeRow, RowPoint, SomeRowPoint};

use crate::by_resolution::ByResolution;
use crate::prepared::Prepared;

// The first precinct of the row y of component c at resolution r, if the row meets one.
pub(crate) fn row_at(prep: &ByResolution<Prepared>, r: u32, c: u32, y: u32) -> Option<u32>
    requires { SomeRow prep.now r (r + 1) c (c + 1) y }
    ensures { (s : Sheet) → AtRow s prep.now r (r + 1) c (c + 1) y → result ≡ row_of s r c y }
{
    let p = prep.at(r, c).kept()?;
    if !p.y.hits(y) {
        return None;
    }
    Some(p.y.column(y) * p.width)
}

// The precinct of component c at resolution r that is met at x in a row, if one is; first tells what the row meets (row_at).
pub(crate) fn cell_from(
    prep: &ByResolution<Prepared>,
    first: Option<u32>,
    r: u32,
    c: u32,
    x: u32,
) -> Option<u32>
    requires { SomeRowPoint prep.now first r c x }
    ensures { (s : Sheet) (y : _) → RowPoint s prep.now first r c x y → result ≡ cell_of s r c x y }
{
    let start = first?;
    let p = prep.at(r, c).kept()?;
    if !p.x.hits(x) {
        return None;
    }
    Some(p.x.column(x) + start)
}

// The precinct of component c at resolution r that is met at (x, y), if one is.
pub(crate) fn cell_at(prep: &ByResolution<Prepared>, r: u32, c: u32, x: u32, y: u32) -> Option<u32>
    requires { SomePoint prep.now r c x y }
    ensures { (s : Sheet) → AtPoint s prep.now r c x y → result ≡ cell_of s r c x y }
{
    cell_from(prep, row_at(prep, r, c, y), r, c, x)
}
