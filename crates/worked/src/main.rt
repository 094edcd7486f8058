// Worked values of the lower layer: a line for each call, as `uint_ceildiv 7 2 = 4` or `uint_ceildiv 7 0 = refused -22`.
// The operands stand at the limits of each function. tools/worked.py computes what must be written, from document 01.
#![tactic(auto)]

mod pairs;
mod powers;
mod precincts;
mod show;
mod tiles;
mod wide;

use std::io;

fn main(rt: HostRuntime) -> io::Result<()> {
    pairs::all(&rt)?;
    wide::all(&rt)?;
    powers::all(&rt)?;
    precincts::all(&rt)?;
    tiles::all(&rt)
}
