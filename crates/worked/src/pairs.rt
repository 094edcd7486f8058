// The functions of two 32-bit operands: minimum, maximum, sum, product, and the division rounded up.
use crate::show::Told;
use geometry::{math, precinct};
use std::io;

// Divisors 0 and 1; sums and products just below, at and above 2^32; divisions with and without a remainder.
const PAIRS: [(u32, u32); 32] = [
    (0, 0),
    (0, 1),
    (1, 0),
    (1, 1),
    (0, 2),
    (1, 2),
    (2, 1),
    (3, 2),
    (7, 2),
    (8, 2),
    (7, 0),
    (6, 7),
    (7, 7),
    (8, 7),
    (100, 255),
    (255, 255),
    (256, 255),
    (0xffff, 0x1_0001),
    (0x1_0000, 0x1_0000),
    (0x1_0001, 0x1_0001),
    (0x8000_0000, 2),
    (0x7fff_ffff, 0x8000_0000),
    (0x8000_0000, 0x8000_0000),
    (0x8000_0001, 0x8000_0000),
    (u32::MAX - 1, 1),
    (u32::MAX - 1, 2),
    (u32::MAX, 0),
    (u32::MAX, 1),
    (u32::MAX, 2),
    (u32::MAX, 0x8000_0000),
    (u32::MAX, u32::MAX),
    (1, u32::MAX),
];

pub(crate) fn all(rt: &impl Print) -> io::Result<()> {
    for &(a, b) in &PAIRS {
        println!(rt; "uint_min {a} {b} = {}", math::uint_min(a, b))?;
        println!(rt; "uint_max {a} {b} = {}", math::uint_max(a, b))?;
        println!(rt; "uint_adds {a} {b} = {}", math::uint_adds(a, b))?;
        println!(rt; "wrapping_mul {a} {b} = {}", math::wrapping_mul(a, b))?;
        println!(rt; "uint_ceildiv {a} {b} = {}", Told(math::uint_ceildiv(a, b)))?;
        println!(rt;
            "component_bound {a} {b} = {}",
            Told(precinct::component_bound(a, b))
        )?;
    }
    Ok(())
}
