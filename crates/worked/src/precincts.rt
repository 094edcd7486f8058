// The precincts on an axis of a resolution: how many, and with the number of the first.
use crate::show::Told;
use geometry::axis::{Columns, Resolution};
use geometry::precinct;
use std::io;

// From, to, and the precinct exponent. Empty and reversed axes; starts and ends just below, at and above a precinct's; exponents 0, 15, 31 and from 32 on;
// ends at 2^32 - 1.
const SPANS: [(u32, u32, u32); 36] = [
    (0, 0, 0),
    (5, 5, 0),
    (5, 5, 4),
    (16, 16, 4),
    (u32::MAX, u32::MAX, 31),
    (6, 5, 4),
    (40, 5, 4),
    (u32::MAX, 0, 15),
    (0, 1, 0),
    (3, 10, 0),
    (u32::MAX - 1, u32::MAX, 0),
    (0, u32::MAX, 0),
    (0, 15, 4),
    (0, 16, 4),
    (0, 17, 4),
    (15, 16, 4),
    (15, 17, 4),
    (16, 32, 4),
    (16, 33, 4),
    (5, 40, 4),
    (0, 0x8000, 15),
    (0, 0x8001, 15),
    (0x7fff, 0x8001, 15),
    (0, u32::MAX, 15),
    (0x7fff, u32::MAX, 15),
    (0xffff_8000, u32::MAX, 15),
    (0xffff_7fff, u32::MAX, 15),
    (1, 2, 31),
    (0x7fff_ffff, 0x8000_0000, 31),
    (0x7fff_ffff, 0x8000_0001, 31),
    (0, u32::MAX, 31),
    (0, 1, 32),
    (5, 5, 32),
    (6, 5, 33),
    (0, 1, 64),
    (0, u32::MAX, u32::MAX),
];

pub(crate) fn all(rt: &impl Print) -> io::Result<()> {
    for &(r0, r1, pd) in &SPANS {
        println!(rt;
            "precincts {r0} {r1} {pd} = {}",
            Told(precinct::precincts(r0, r1, pd))
        )?;
        let Columns { first, count } = Resolution { r0, r1 }.columns(pd);
        println!(rt; "columns {r0} {r1} {pd} = {first} {count}")?;
    }
    Ok(())
}
