// Kind 4, a sheet at a limit, accepted or refused with the number of the first rule that it breaks.
// Words: bytes of the sheet, bytes of the table lent, marks lent, the number; then the sheet. An accepted one is lent just what it needs.
use crate::bytes::Bytes;
use crate::check::{Wrong, check};
use crate::lent::{Largest, refuses};

#[inline(never)]
fn accepts(sheet: &[u8], table: usize, marks: usize) -> Result<(), Wrong> {
    let mut lent = Largest::new(table, marks);
    lent.setup(sheet)?;
    check(lent.table.only(lent.table_bytes).is_some())?;
    check(lent.marks.is_clear(lent.mark_bytes))
}

pub(crate) fn replay(record: &[u8]) -> Result<(), Wrong> {
    let mut bytes = Bytes(record);
    let [sheet, table, marks, number] = bytes.words::<4>();
    let sheet = bytes.part(sheet as usize);
    match number.cast_signed() {
        0 => accepts(sheet, table as usize, marks as usize),
        number => refuses(sheet, table as usize, marks as usize, number),
    }
}
