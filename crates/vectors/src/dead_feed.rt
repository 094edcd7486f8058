// The dead feed: a progression with no layers (document 01's sheet A with kind 4 `0 0 0 0 2 1`) has nothing to give. The Rust's second call
// marks a precinct there, so that a region with no packets looks alive; here the answer is 0 for good, and no mark is set.
use crate::buffer::{MARKS, TABLE};
use crate::check::{Wrong, check};
use crate::tile::Tile;
use std::io;
use types::answer::Stepped;
use types::cursor::Cursor;
use words::put_word;

// The sheet's records in words.
const SHEET: [[u32; 8]; 5] = [
    [1, 0, 0, 64, 32, 2, 1, 1],
    [2, 1, 1, 2, 0, 0, 0, 0],
    [3, 4, 4, 0, 0, 0, 0, 0],
    [3, 5, 5, 0, 0, 0, 0, 0],
    [4, 0, 0, 0, 0, 2, 1, 0],
];

// Both steps answer 0, with the ended cursor.
#[inline(never)]
fn stays_dead() -> Result<(), Wrong> {
    let mut sheet = [0u8; 160];
    for (i, word) in SHEET.as_flattened().iter().enumerate() {
        put_word(&mut sheet, 4 * i, *word);
    }
    let mut tile = Tile::<TABLE, MARKS>::set_up(&sheet, 32, 8)?;
    let ended = Cursor::ended(0, 0);
    for cursor in [Cursor::fresh(0, 0), ended] {
        check(matches!(tile.step(cursor), Stepped::Ended(last) if last == ended))?;
    }
    check(tile.lent.marks.is_clear(8))
}

pub(crate) fn replay(rt: &impl Print) -> io::Result<()> {
    match stays_dead() {
        Ok(()) => println!(rt; "dead feed: 0, 0 again, no mark set"),
        Err(Wrong) => println!(rt; "dead feed: WRONG"),
    }
}
