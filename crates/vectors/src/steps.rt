// Kind 5, steps from cursors of one sheet: from every position of every progression, from cursors that are wrong by one in a field, and over
// a table that is changed or lent too short. Words: bytes of the sheet, marks needed, bytes of the table, positions, cursors, alterations;
// then the sheet, the marks before (zeros up to a multiple of 4), and the three lists. bench/README.md says what an entry of each list has.
use crate::buffer::SMALL;
use crate::bytes::Bytes;
use crate::check::{Wrong, check};
use crate::positions::{Outcome, Positions};
use crate::tally::Tally;
use crate::tile::Tile;
use std::io;
use types::cursor::Cursor;

#[derive(Drop)]
struct Case<'a> {
    sheet: &'a [u8],
    needed: u32,
    table: u32,
    before: &'a [u8],
    positions: Positions<'a>,
}

// What is lent for a step, and a byte of the table with bits of it changed.
#[derive(Drop)]
struct Trial {
    table: u32,
    marks: u32,
    at: u32,
    bits: u32,
}

impl Case<'_> {
    // One step, over the marks before.
    fn step(&self, trial: Trial, cursor: Cursor, outcome: u32) -> Result<(), Wrong> {
        let outcome = self.positions.outcome(outcome).ok_or(Wrong)?;
        let mut tile = Tile::<SMALL, SMALL>::set_up(
            self.sheet,
            self.table as usize,
            self.needed as usize,
        )?;
        tile.lent.table.flip(trial.at, trial.bits);
        tile.lent.table_bytes = trial.table as usize;
        tile.lent.marks.put(self.before);
        tile.lent.mark_bytes = trial.marks as usize;
        let mut expected = tile.lent.marks;
        if let Outcome::Packet(met) = outcome {
            let p = met.position;
            let at = tile.mark_of([p.layno, p.resno, p.compno, p.precno]);
            if let Some(mark) = expected.get_mut(at) {
                *mark |= 1u8.checked_shl(cursor.viewer).unwrap_or(0);
            }
        }
        check(outcome.is(tile.step(cursor), cursor))?;
        check(tile.lent.marks == expected)
    }
}

pub(crate) fn replay(record: &[u8], tally: &mut Tally<'_, impl Print>) -> io::Result<()> {
    let mut bytes = Bytes(record);
    let [sheet, needed, table, positions, cursors, alterations] = bytes.words::<6>();
    let case = Case {
        sheet: bytes.part(sheet as usize),
        needed,
        table,
        before: bytes.padded(needed as usize),
        positions: Positions(bytes.rows(positions)),
    };
    for entry in bytes.rows::<16>(cursors) {
        let [viewer, number, change, outcome] = Bytes(entry).words::<4>();
        let cursor = case.positions.cursor(viewer, number, change);
        let trial = Trial {
            table,
            marks: needed,
            at: 0,
            bits: 0,
        };
        tally.case(case.step(trial, cursor, outcome))?;
    }
    for entry in bytes.rows::<20>(alterations) {
        let [table, marks, at, bits, outcome] = Bytes(entry).words::<5>();
        let trial = Trial {
            table,
            marks,
            at,
            bits,
        };
        tally.case(case.step(trial, Cursor::fresh(0, 0), outcome))?;
    }
    Ok(())
}
