// The 64-bit division rounded up, whose quotient is taken modulo 2^32.
use crate::show::Told;
use geometry::math;
use std::io;

// Divisors 0 and 1; quotients just below, at and above 2^32; sums of the operands just below, at and above 2^64.
const PAIRS: [(u64, u64); 32] = [
    (0, 0),
    (1, 0),
    (u64::MAX, 0),
    (0, 1),
    (1, 1),
    (0, 2),
    (7, 2),
    (8, 2),
    (9, 2),
    (0xffff_ffff, 1),
    (0x1_0000_0000, 1),
    (0x1_0000_0001, 1),
    (0x1_0000_0000, 2),
    (0x1_ffff_fffe, 2),
    (0x1_ffff_ffff, 2),
    (0x2_0000_0000, 2),
    (0x2_0000_0001, 2),
    (0xffff_ffff_0000, 0x1_0000),
    (0xffff_ffff_0001, 0x1_0000),
    (0x1_0000_0000_0001, 0x1_0000),
    (u64::MAX - 1, 1),
    (u64::MAX, 1),
    (u64::MAX - 2, 2),
    (u64::MAX - 1, 2),
    (0, u64::MAX),
    (1, u64::MAX),
    (u64::MAX, u64::MAX),
    (0x7fff_ffff_ffff_ffff, 0x8000_0000_0000_0000),
    (0x8000_0000_0000_0000, 0x7fff_ffff_ffff_ffff),
    (0x8000_0000_0000_0000, 0x8000_0000_0000_0000),
    (0xffff_fffe_ffff_ffff, 0x1_0000_0000),
    (0xffff_ffff_0000_0000, 0x1_0000_0000),
];

pub(crate) fn all(rt: &impl Print) -> io::Result<()> {
    for &(a, b) in &PAIRS {
        println!(rt;
            "uint64_ceildiv_res_uint32 {a} {b} = {}",
            Told(math::uint64_ceildiv_res_uint32(a, b))
        )?;
    }
    Ok(())
}
