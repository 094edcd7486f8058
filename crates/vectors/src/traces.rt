// Kind 7, calls of all viewers over the marks of one sheet, one after the other. Words: bytes of the sheet, marks needed, bytes of the table,
// positions, calls, the eight totals after; then the sheet, the marks before and after (zeros up to a multiple of 4), the positions and the calls.
// bench/README.md says what a call has.
use crate::buffer::{Buffer, SMALL};
use crate::bytes::Bytes;
use crate::check::{Wrong, check, stored};
use crate::positions::Positions;
use crate::tile::Tile;
use types::cursor::Cursor;

enum Call {
    Join,
    Open,
    Step,
}

impl From<u32> for Call {
    fn from(number: u32) -> Call {
        match number {
            0 => Call::Join,
            1 => Call::Open,
            _ => Call::Step,
        }
    }
}

// A call: what it is, the marks lent, its viewer, what its progression or cursor comes from, and how, and the outcome.
fn answered(
    tile: &mut Tile<SMALL, SMALL>,
    positions: Positions<'_>,
    call: &[u8],
) -> Result<(), Wrong> {
    let [what, marks, viewer, number, change, outcome] = Bytes(call).words::<6>();
    tile.lent.mark_bytes = marks as usize;
    match Call::from(what) {
        Call::Join => {
            let said = tile.join(viewer);
            check(said.map_err(|e| e as i32) == stored(outcome, ()))
        }
        Call::Open => {
            let said = tile.open(viewer, number);
            let fresh = Cursor::fresh(viewer, number);
            check(said.map_err(|e| e as i32) == stored(outcome, fresh))
        }
        Call::Step => {
            let cursor = positions.cursor(viewer, number, change);
            let outcome = positions.outcome(outcome).ok_or(Wrong)?;
            check(outcome.is(tile.step(cursor), cursor))
        }
    }
}

pub(crate) fn replay(record: &[u8]) -> Result<(), Wrong> {
    let mut bytes = Bytes(record);
    let [sheet, needed, table, positions, calls] = bytes.words::<5>();
    let totals = bytes.words::<8>();
    let sheet = bytes.part(sheet as usize);
    let mut tile = Tile::<SMALL, SMALL>::set_up(sheet, table as usize, needed as usize)?;
    let mut after = Buffer::filled();
    tile.lent.marks.put(bytes.padded(needed as usize));
    after.put(bytes.padded(needed as usize));
    let positions = Positions(bytes.rows(positions));
    for call in bytes.rows::<24>(calls) {
        answered(&mut tile, positions, call)?;
    }
    for (viewer, total) in (0..).zip(totals) {
        check(tile.followed.total(viewer) == total)?;
    }
    check(tile.lent.marks == after)
}
