// The divisions by a power of two: rounded down, which shifts in 32 bits, and rounded up, which shifts in 64.
use crate::show::Told;
use geometry::{math, precinct};
use std::io;

// A number and an exponent each. Exponents just below, at and above both widths; numbers just below, at and above a multiple of the power.
const SHIFTS: [(u32, u32); 32] = [
    (0, 0),
    (1, 0),
    (u32::MAX, 0),
    (0, 1),
    (1, 1),
    (2, 1),
    (3, 1),
    (u32::MAX, 1),
    (7, 3),
    (8, 3),
    (9, 3),
    (0xffff, 16),
    (0x1_0000, 16),
    (0x1_0001, 16),
    (0, 31),
    (0x7fff_ffff, 31),
    (0x8000_0000, 31),
    (0x8000_0001, 31),
    (u32::MAX, 31),
    (0, 32),
    (1, 32),
    (0x8000_0000, 32),
    (u32::MAX, 32),
    (0, 33),
    (u32::MAX, 33),
    (0, 63),
    (1, 63),
    (u32::MAX, 63),
    (0, 64),
    (u32::MAX, 64),
    (1, 65),
    (7, u32::MAX),
];

pub(crate) fn all(rt: &impl Print) -> io::Result<()> {
    for &(a, b) in &SHIFTS {
        println!(rt;
            "uint_floordivpow2 {a} {b} = {}",
            Told(math::uint_floordivpow2(a, b))
        )?;
        println!(rt;
            "uint_ceildivpow2 {a} {b} = {}",
            Told(math::uint_ceildivpow2(a, b))
        )?;
        println!(rt;
            "resolution_bound {a} {b} = {}",
            Told(precinct::resolution_bound(a, b))
        )?;
    }
    Ok(())
}
