// Setup (01, 'Numbers that come back'): a sheet is read and surveyed, and only once nothing can be refused the table and the marks are written.
ghost use Rattle.std.specs.Prelude.{◌≡◌};
ghost use Rattle.types.specs.Answers.{of_set_up, of_started};
ghost use Rattle.packets.specs.Calls.{start_of};
ghost use Rattle.calls.specs.Room.{setup_in};

use crate::output::Output;
use crate::{marks, table};
use soundness::totals::total;
use survey::Source;
use types::answer::Refusal;
use types::followed::Followed;
use types::state::State;
use types::table::{Entry, entries};

// Setup for a call that writes an output too: a refusal, -1 to -8, changes nothing.
pub fn setup_for(
    sheet: &[u8],
    table: &mut [u8],
    marks: &mut [u8],
    output: Output,
) -> Result<State, Refusal>
    ensures says { of_set_up result ≡ (setup_in sheet.now table.old marks.old output).said }
    ensures written { table.new ≡ (setup_in sheet.now table.old marks.old output).table }
    ensures cleared { marks.new ≡ (setup_in sheet.now table.old marks.old output).marks }
{
    let st = reader::read(sheet)?;
    // the words of the table, kept until nothing can be refused
    let mut kept = [0u32; State::MAX_TABLE_WORDS];
    let found = match survey::survey(sheet, Source::Records, false, st, &mut kept) {
        Some(found) if found.grid => found,
        _ => return Err(Refusal::Grid),
    };
    let Some(needed) = found.needed else {
        return Err(Refusal::TooMany);
    };
    if marks.len() < needed as usize {
        return Err(Refusal::Marks);
    }
    let comps = st.comps;
    let count = entries(&comps, st.components as usize);
    if table.len() < Entry::BYTES * count {
        return Err(Refusal::Table);
    }
    if !output.has_room(needed) {
        return Err(Refusal::Output);
    }
    table::write(&kept, count, table);
    marks::clear(marks, needed as usize);
    Ok(State {
        reports: found.reports,
        ..st
    })
}

// Reads a sheet. If it is accepted, writes its table, clears the marks that it needs, and gives every viewer all packets that some progression admits (02,
// P8); a refusal, -1 to -7, changes nothing.
pub fn setup(sheet: &[u8], table: &mut [u8], marks: &mut [u8]) -> Result<Followed, Refusal>
    ensures says { (of_started result).number ≡ (start_of sheet.now table.old marks.old).number }
    ensures counts { (of_started result).followed ≡ (start_of sheet.now table.old marks.old).followed }
    ensures written { table.new ≡ (start_of sheet.now table.old marks.old).table }
    ensures cleared { marks.new ≡ (start_of sheet.now table.old marks.old).marks }
{
    let st = setup_for(sheet, table, marks, Output::Nothing)?;
    Ok(Followed::started(st, total(st, table)))
}
