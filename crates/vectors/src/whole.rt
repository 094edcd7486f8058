// The whole run of an accepted sheet, between guard bytes: it lists the stored packets, a record of 16 bytes each, and leaves the table and
// the marks as setup and the steps do. With one byte of output too few it answers -8, and nothing changes.
use crate::accepted::Case;
use crate::buffer::{Buffer, MARKS, OUTPUT, TABLE};
use crate::check::{Wrong, check};
use crate::lent::Lent;
use types::answer::Refusal;

fn lists(case: &Case<'_>) -> Result<(), Wrong> {
    let table = case.table;
    let packets = case.packets.as_flattened();
    let mut lent = Lent::<TABLE, MARKS>::new(table.len(), case.needed as usize);
    let mut output = Buffer::<OUTPUT>::filled();
    let answer = lent.whole_run(case.sheet, &mut output, 16 * (case.needed as usize));
    check(answer == Ok(case.count))?;
    check(lent.table.only(table.len()) == Some(table))?;
    check(lent.marks == case.left()?)?;
    check(output.only(packets.len()) == Some(packets))
}

fn refused(case: &Case<'_>) -> Result<(), Wrong> {
    let Some(short) = (16 * (case.needed as usize)).checked_sub(1) else {
        return Ok(());
    };
    let before = Lent::<TABLE, MARKS>::new(case.table.len(), case.needed as usize);
    let mut lent = before;
    let mut output = Buffer::<OUTPUT>::filled();
    let answer = lent.whole_run(case.sheet, &mut output, short);
    check(answer == Err(Refusal::Output))?;
    check(lent == before)?;
    check(output == Buffer::filled())
}

pub(crate) fn replay(case: &Case<'_>) -> Result<(), Wrong> {
    lists(case)?;
    refused(case)
}
