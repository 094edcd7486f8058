// Kind 6, rectangles of precincts in one sheet: of precincts all over it, of numbers that it has not got, and over a table that is changed or
// lent too short. Words: bytes of the sheet, marks needed, bytes of the table, questions; then the sheet and the questions.
use crate::buffer::{Buffer, TABLE};
use crate::bytes::Bytes;
use crate::check::{Wrong, check, stored};
use crate::lent::Largest;
use crate::tally::Tally;
use std::io;
use types::state::State;

// A question: bytes of the table lent, a place in the table, the bits to change there, component, resolution and precinct; then its answer.
fn answered(st: State, mut table: Buffer<TABLE>, question: &[u8]) -> Result<(), Wrong> {
    let mut bytes = Bytes(question);
    let [lent, at, bits, component, resolution, precinct] = bytes.words::<6>();
    let [number] = bytes.words::<1>();
    table.flip(at, bits);
    let part = table.first(lent as usize);
    let said = calls::rectangle::rectangle(st, part, component, resolution, precinct);
    let said = said.map(|a| [a.x0, a.y0, a.x1, a.y1]);
    check(said.map_err(|e| e as i32) == stored(number, bytes.words()))
}

#[inline(never)]
pub(crate) fn replay(record: &[u8], tally: &mut Tally<'_, impl Print>) -> io::Result<()> {
    let mut bytes = Bytes(record);
    let [sheet, marks, table, questions] = bytes.words::<4>();
    let mut lent = Largest::new(table as usize, marks as usize);
    let up = lent.setup(bytes.part(sheet as usize));
    for question in bytes.rows::<44>(questions) {
        tally.case(match up {
            Ok(followed) => answered(followed.state, lent.table, question),
            Err(_) => Err(Wrong),
        })?;
    }
    Ok(())
}
