// The bounds of tiles. A line is `tile_bounds x0 y0 x1 y1 of tx0 ty0 tdx tdy by tw th at n = tx0 ty0 tx1 ty1`: the image, the grid's origin and
// tile size, how many tiles, the tile's number.
use geometry::tile::{Area, Grid, tile_bounds};
use std::io;

const MAX: u32 = u32::MAX;

const HALF: u32 = 0x8000_0000;

const QUARTER: u32 = 0x4000_0000;

// The image x0 y0 x1 y1, the grid tx0 ty0 tdx tdy tw th, and the tile's number.
const CASES: [([u32; 4], [u32; 6], u32); 40] = [
    // a grid that starts where the image does: 4 by 3 tiles
    ([0, 0, 100, 80], [0, 0, 32, 32, 4, 3], 0),
    ([0, 0, 100, 80], [0, 0, 32, 32, 4, 3], 1),
    ([0, 0, 100, 80], [0, 0, 32, 32, 4, 3], 3),
    ([0, 0, 100, 80], [0, 0, 32, 32, 4, 3], 4),
    ([0, 0, 100, 80], [0, 0, 32, 32, 4, 3], 11),
    ([0, 0, 100, 80], [0, 0, 32, 32, 4, 3], 12),
    ([0, 0, 100, 80], [0, 0, 32, 32, 4, 3], 13),
    ([0, 0, 100, 80], [0, 0, 32, 32, 4, 3], MAX),
    // an image that starts inside the first tile
    ([10, 20, 100, 80], [4, 8, 32, 24, 3, 3], 0),
    ([10, 20, 100, 80], [4, 8, 32, 24, 3, 3], 1),
    ([10, 20, 100, 80], [4, 8, 32, 24, 3, 3], 3),
    ([10, 20, 100, 80], [4, 8, 32, 24, 3, 3], 8),
    ([10, 20, 100, 80], [4, 8, 32, 24, 3, 3], 9),
    ([3, 5, 1000, 700], [1, 2, 300, 100, 4, 7], 5),
    ([3, 5, 1000, 700], [1, 2, 300, 100, 4, 7], 26),
    ([3, 5, 1000, 700], [1, 2, 300, 100, 4, 7], 27),
    ([3, 5, 1000, 700], [1, 2, 300, 100, 4, 7], 28),
    // a tile before the image, one after it, and one of no size
    ([50, 0, 100, 80], [0, 0, 32, 32, 4, 3], 0),
    ([0, 0, 90, 80], [0, 0, 32, 32, 4, 3], 3),
    ([0, 0, 100, 80], [7, 9, 0, 0, 4, 3], 6),
    // an end at the limit, and ends that saturate
    ([0, 0, MAX, MAX], [0, 0, MAX, MAX, 1, 1], 0),
    ([1, 1, MAX, MAX], [1, 1, MAX, MAX, 1, 1], 0),
    (
        [0, 0, MAX, MAX],
        [0xffff_ffe0, 0xffff_ff00, 32, 512, 1, 1],
        0,
    ),
    ([0, 0, MAX - 1, MAX], [HALF, HALF, HALF - 1, HALF, 1, 1], 0),
    // starts that wrap, in the sum and in the product
    ([0, 0, MAX, MAX], [HALF, HALF, QUARTER, QUARTER, 4, 4], 1),
    ([0, 0, MAX, MAX], [HALF, HALF, QUARTER, QUARTER, 4, 4], 2),
    ([0, 0, MAX, MAX], [HALF, HALF, QUARTER, QUARTER, 4, 4], 15),
    ([9, 0, MAX, MAX], [5, 7, HALF + 1, 3, 4, 1], 2),
    ([0, 0, MAX, MAX], [MAX, 7, MAX, MAX, 2, 3], 5),
    // numbers of tiles that wrap
    ([0, 0, 100, 80], [0, 0, 1, 1, 65536, 65536], 0),
    ([0, 0, 65536, 80], [0, 0, 1, 1, 65537, 65536], 65535),
    ([0, 0, 65536, 80], [0, 0, 1, 1, 65537, 65536], 65536),
    ([0, 0, 100, 80], [0, 0, 32, 32, HALF + 1, 2], 1),
    ([0, 0, 100, 80], [0, 0, 32, 32, HALF + 1, 2], 2),
    ([0, 0, 100, 80], [0, 0, 32, 32, 2, HALF + 1], 1),
    ([0, 0, 100, 80], [0, 0, 32, 32, MAX, MAX], 0),
    ([0, 0, 100, 80], [0, 0, 32, 32, MAX, MAX], 1),
    // no column, no row
    ([0, 0, 100, 80], [0, 0, 32, 32, 0, 3], 0),
    ([0, 0, 100, 80], [0, 0, 32, 32, 4, 0], 0),
    ([0, 0, 100, 80], [0, 0, 32, 32, 0, 0], MAX),
];

pub(crate) fn all(rt: &impl Print) -> io::Result<()> {
    for &([x0, y0, x1, y1], [tx0, ty0, tdx, tdy, tw, th], n) in &CASES {
        print!(rt;
            "tile_bounds {x0} {y0} {x1} {y1} of {tx0} {ty0} {tdx} {tdy} by {tw} {th} at {n} = "
        )?;
        let image = Area { x0, y0, x1, y1 };
        let grid = Grid {
            tx0,
            ty0,
            tdx,
            tdy,
            tw,
            th,
        };
        match tile_bounds(image, grid, n) {
            Some(Area { x0, y0, x1, y1 }) => println!(rt; "{x0} {y0} {x1} {y1}")?,
            None => println!(rt; "refused -10")?,
        }
    }
    Ok(())
}
