// The bounds of a tile of the image (01, 'Tile bounds'), as opj_get_all_encoding_parameters has them.
ghost use Rattle.std.specs.Prelude.{◌≡◌};
ghost use Rattle.geometry.specs.Said.{of_tile};
ghost use Rattle.geometry.specs.Tile.{start_of, side_of, tile_bounds_of};

use crate::math;

// An area of the reference grid; its ends are not in it.
#[derive(Clone, Copy)]
pub struct Area {
    pub x0: u32,
    pub y0: u32,
    pub x1: u32,
    pub y1: u32,
}

// The tile grid: its origin, the size of a tile, and how many tiles stand side by side and one below the other.
#[derive(Clone, Copy)]
pub struct Grid {
    pub tx0: u32,
    pub ty0: u32,
    pub tdx: u32,
    pub tdy: u32,
    pub tw: u32,
    pub th: u32,
}

// A tile's extent on one axis.
#[derive(Clone, Copy)]
pub struct Side {
    pub start: u32,
    pub end: u32,
}

// Where column or row p of the grid starts; sum and product wrap.
fn start_of(origin: u32, p: u32, size: u32) -> u32
    ensures { result ≡ start_of origin p size }
{
    origin.wrapping_add(math::wrapping_mul(p, size))
}

fn side_of(i0: u32, i1: u32, origin: u32, p: u32, size: u32) -> Side
    ensures { result ≡ side_of i0 i1 origin p size }
{
    let start = start_of(origin, p, size);
    Side {
        start: start.max(i0),
        end: i1.min(start.saturating_add(size)),
    }
}

// The part of the image that tile number tileno covers; None, the refusal -10, for a number outside the grid.
pub fn tile_bounds(image: Area, grid: Grid, tileno: u32) -> Option<Area>
    ensures { of_tile result ≡ tile_bounds_of image grid tileno }
{
    if tileno < math::wrapping_mul(grid.tw, grid.th) {
        let x = side_of(image.x0, image.x1, grid.tx0, tileno % grid.tw, grid.tdx);
        let y = side_of(image.y0, image.y1, grid.ty0, tileno / grid.tw, grid.tdy);
        Some(Area {
            x0: x.start,
            y0: y.start,
            x1: x.end,
            y1: y.end,
        })
    } else {
        None
    }
}
