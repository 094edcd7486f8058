// Stored cases, replayed through our functions: numbers, table bytes, marks and guard bytes are compared. data/rust has answers of the Rust,
// data/model those of a model of document 01; bench/README.md has their format. A line for each kind says how many cases were wrong.
#![tactic(auto)]

mod accepted;
mod buffer;
mod bytes;
mod check;
mod dead_feed;
mod kind;
mod lent;
mod limits;
mod numbers;
mod positions;
mod rectangles;
mod steps;
mod tally;
mod tile;
mod traces;
mod walked;
mod whole;

use crate::bytes::Bytes;
use crate::check::Wrong;
use crate::kind::Kind;
use crate::tally::Tally;
use anyhow::{Context, Result};
use std::fs::File;
use std::io;
use std::io::{ErrorKind, Read};
use std::ops::ControlFlow;
use std::rt::Files;

// No record is longer.
const LONGEST: usize = 65_536;

// No file has more records.
const MOST: u32 = 100_000;

// The next record of the file (kind, length of the rest in bytes, rest), none at the end: its kind, and the rest, which goes to what is lent. A rest
// that is longer has no end.
fn record<'a>(file: &mut impl Read, lent: &'a mut [u8]) -> io::Result<Option<(u32, &'a [u8])>> {
    let mut head = [0u8; 8];
    let got = file.read(&mut head)?;
    if got == 0 {
        return Ok(None);
    }
    file.read_exact(&mut head[got..])?;
    let [kind, length] = Bytes(&head).words::<2>();
    let rest = lent
        .get_mut(..length as usize)
        .ok_or(ErrorKind::UnexpectedEof)?;
    file.read_exact(rest)?;
    Ok(Some((kind, rest)))
}

// Replays the next record of the file. One without an end is a wrong case, and the last.
fn turn(file: &mut impl Read, tally: &mut Tally<'_, impl Print>) -> io::Result<ControlFlow<()>> {
    let mut lent = [0u8; LONGEST];
    match record(file, &mut lent) {
        Ok(Some((kind, rest))) => {
            // one of another kind is passed over
            if kind == tally.kind as u32 {
                tally.kind.replay(rest, tally)?;
            }
            Ok(ControlFlow::Continue(()))
        }
        Ok(None) => Ok(ControlFlow::Break(())),
        Err(e) if e.kind() == ErrorKind::UnexpectedEof => {
            tally.case(Err(Wrong))?;
            Ok(ControlFlow::Break(()))
        }
        Err(e) => Err(e),
    }
}

// Every record up to the file's end. Where that does not come before the last turn, it is a wrong case.
fn all(file: &mut impl Read, tally: &mut Tally<'_, impl Print>) -> io::Result<()> {
    for _ in 1..MOST {
        if turn(file, tally)?.is_break() {
            return Ok(());
        }
    }
    let _ = turn(file, tally)?;
    tally.case(Err(Wrong))
}

fn replay(rt: &(impl Files + Print), kind: Kind) -> Result<()> {
    let path = kind.file();
    let mut file = File::open(rt, path).context(path)?;
    let mut tally = Tally::new(rt, kind);
    all(&mut file, &mut tally).context(path)?;
    println!(rt; "{tally}")?;
    Ok(())
}

fn main(rt: HostRuntime) -> Result<()> {
    for kind in Kind::ALL {
        replay(&rt, kind)?;
    }
    dead_feed::replay(&rt)?;
    Ok(())
}
