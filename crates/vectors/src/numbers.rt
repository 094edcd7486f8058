// Kinds 2 and 3, tile bounds and arithmetic.
use crate::bytes::Bytes;
use crate::check::{Wrong, check, stored};
use geometry::tile::{Area, Grid};
use geometry::{math, tile};

// Words: x0 y0 x1 y1 tx0 ty0 tdx tdy tw th tileno, 0 or -10, and the tile's bounds.
pub(crate) fn tile_bounds(record: &[u8]) -> Result<(), Wrong> {
    let mut bytes = Bytes(record);
    let [x0, y0, x1, y1] = bytes.words::<4>();
    let [tx0, ty0, tdx, tdy, tw, th, tileno] = bytes.words::<7>();
    let [number] = bytes.words::<1>();
    let image = Area { x0, y0, x1, y1 };
    let grid = Grid {
        tx0,
        ty0,
        tdx,
        tdy,
        tw,
        th,
    };
    let said = tile::tile_bounds(image, grid, tileno).map(|a| [a.x0, a.y0, a.x1, a.y1]);
    check(said.ok_or(-10) == stored(number, bytes.words()))
}

fn wide(high: u32, low: u32) -> u64 {
    (u64::from(high) << 32) | u64::from(low)
}

// Words: the function, a and b of two words each (the higher first), 0 or -22, and the answer.
pub(crate) fn arithmetic(record: &[u8]) -> Result<(), Wrong> {
    let [function, a_high, a, b_high, b, number, answer] = Bytes(record).words::<7>();
    // kept as a number: an enum would only stand between it and this list
    let said = match function {
        0 => Some(math::uint_min(a, b)),
        1 => Some(math::uint_max(a, b)),
        2 => Some(math::uint_adds(a, b)),
        3 => math::uint_ceildiv(a, b),
        4 => math::uint64_ceildiv_res_uint32(wide(a_high, a), wide(b_high, b)),
        5 => math::uint_floordivpow2(a, b),
        _ => math::uint_ceildivpow2(a, b),
    };
    check(said.ok_or(-22) == stored(number, answer))
}
