// The steps of an accepted sheet: every progression in turn, each up to its 0 and once more, lists the stored packets in order and sets their marks.
use crate::accepted::Case;
use crate::buffer::{MARKS, TABLE};
use crate::bytes::Bytes;
use crate::check::{Wrong, check};
use crate::tile::Tile;
use types::answer::{NotOpened, Stepped};
use types::cursor::{Cursor, Place};

// No stored sheet has more packets.
const MOST: u32 = 65_536;

#[derive(Drop)]
struct Walk<'a> {
    tile: Tile<TABLE, MARKS>,
    // the stored packets that are still to be listed
    packets: &'a [[u8; 16]],
}

impl Walk<'_> {
    // One step, which answers the next of the stored packets, or 0: the cursor after it.
    fn step(&mut self, cursor: Cursor) -> Result<Cursor, Wrong> {
        match self.tile.step(cursor) {
            Stepped::Packet(p, moved) => {
                let (packet, rest) = self.packets.split_first().ok_or(Wrong)?;
                self.packets = rest;
                check(Bytes(packet).words() == [p.layno, p.resno, p.compno, p.precno])?;
                let place = Place::At(p);
                check(moved == Cursor { place, ..cursor })?;
                Ok(moved)
            }
            Stepped::Ended(last) => {
                check(last == Cursor::ended(0, cursor.progression))?;
                Ok(last)
            }
            Stepped::Unsound(_) => Err(Wrong),
        }
    }

    // A progression, opened, to its 0, and one step after it, which is 0 again.
    fn progression(&mut self, k: u32) -> Result<(), Wrong> {
        let mut cursor = self.tile.open(0, k)?;
        check(cursor == Cursor::fresh(0, k))?;
        for _ in 0..MOST {
            cursor = self.step(cursor)?;
            if cursor.place == Place::Ended {
                break;
            }
        }
        cursor = self.step(cursor)?;
        check(cursor.place == Place::Ended)
    }
}

// All the stored packets are listed and no other, the marks are as expected, the total goes from all of them to 0, and there is no progression more
// than there are: -11.
#[inline(never)]
pub(crate) fn replay(case: &Case<'_>) -> Result<(), Wrong> {
    let tile = case.tile()?;
    let first = tile.followed;
    let packets = case.packets;
    let mut walk = Walk { tile, packets };
    for k in 0..first.state.progressions {
        walk.progression(k)?;
    }
    let Walk { mut tile, packets } = walk;
    check(packets.is_empty())?;
    check(first.total(0) as usize == case.packets.len())?;
    check(tile.followed.total(0) == 0)?;
    check(tile.lent.marks == case.left()?)?;
    tile.followed = first;
    check(tile.open(0, first.state.progressions) == Err(NotOpened::NoSuch))
}
