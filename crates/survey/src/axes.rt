// The two axes of a component, and the entry of the table that a resolution has on them.
ghost use Rattle.std.specs.Prelude.{◌≡◌};
ghost use Rattle.survey.specs.Passing.{axes_of, entry_of};

use geometry::axis::Axis;
use geometry::tile::Area;
use types::table::Entry;

#[derive(Clone, Copy)]
pub(crate) struct Axes {
    pub x: Axis,
    pub y: Axis,
}

impl Axes {
    // The component of steps dx and dy on a tile.
    pub(crate) fn of(tile: Area, dx: u32, dy: u32) -> Self
        ensures { result ≡ axes_of tile dx dy }
    {
        Axes {
            x: Axis::of(tile.x0, tile.x1, dx),
            y: Axis::of(tile.y0, tile.y1, dy),
        }
    }

    // Its resolution of this level, with these precinct exponents.
    pub(crate) fn entry(self, level: u32, pdx: u32, pdy: u32) -> Entry
        ensures { result ≡ entry_of self level pdx pdy }
    {
        let across = self.x.at(level).columns(pdx);
        let down = self.y.at(level).columns(pdy);
        Entry {
            pdx,
            pdy,
            width: across.count,
            height: down.count,
        }
    }
}
