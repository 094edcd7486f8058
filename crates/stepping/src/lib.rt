// A whole run made by the public calls alone: setup, and for each progression opening and single steps until the answer is no packet.
// It is for the bench, which compares and measures steps by it, and is in no header. Nobody asks for the totals: they are 0, and stay so.
#![tactic(auto)]

ghost use Rattle.std.specs.Prelude.{◌≡◌, ◌≤◌};
ghost use Rattle.types.specs.Answers.{of_opened, of_stepped};
ghost use Rattle.packets.specs.Calls.{open_of, step_of, whole_run_of};
ghost use Rattle.packets.specs.Host.{most_steps};
ghost use Rattle.walks.specs.Running.{Total};
ghost use Rattle.stepping.specs.Stepped.{uncounted, stepped_of, turned_of, hosted_of};

use calls::output::Output;
use calls::setup::setup_for;
use types::answer::{NotOpened, Stepped};
use types::cursor::Cursor;
use types::followed::Followed;
use types::state::State;
use words::{Four, put_four};

fn open(st: State, table: &[u8], marks: &[u8], viewer: u32, k: u32) -> Result<Cursor, NotOpened>
    ensures { of_opened result ≡ open_of (uncounted st) table.now marks.now viewer k }
{
    calls::open::open(Followed::started(st, 0), table, marks, viewer, k)
}

fn step(st: State, table: &[u8], marks: &mut [u8], cursor: Cursor) -> Stepped
    ensures says { of_stepped result ≡ (step_of (uncounted st) table.now marks.old cursor).said }
    ensures marked { marks.new ≡ (step_of (uncounted st) table.now marks.old cursor).marks }
{
    calls::step::step(Followed::started(st, 0), table, marks, cursor).said
}

// Steps from a cursor until the answer is no packet, and writes each packet as the next record, with n before them; answers how many there are then.
// kept as parameters: the definitions of specs/Stepped, which these loops mirror, have state, table, marks and output one by one
fn step_on(
    st: State,
    table: &[u8],
    marks: &mut [u8],
    output: &mut [u8],
    cursor: Cursor,
    n: u32,
) -> u32
    requires { (stepped_of most_steps st table.now marks.old cursor output.old n).count ≤ 65536 }
    ensures { ◌≡◌ {A = Total} (record { count = result; marks = marks.new; output = output.new }) (stepped_of most_steps st table.now marks.old cursor output.old n) }
{
    let mut at = cursor;
    let mut count = n;
    // 01: at most 65,536 marks are needed, so that one step more ends a progression
    for _ in 0..65537u32 {
        match step(st, table, marks, at) {
            Stepped::Packet(p, moved) => {
                put_four(
                    output,
                    16 * (count as usize),
                    Four {
                        a: p.layno,
                        b: p.resno,
                        c: p.compno,
                        d: p.precno,
                    },
                );
                count += 1;
                at = moved;
            }
            Stepped::Ended(_) | Stepped::Unsound(_) => return count,
        }
    }
    count
}

// Opens progression k as the whole run's viewer, over the marks as they are, and steps through it.
fn turn(st: State, table: &[u8], marks: &mut [u8], output: &mut [u8], k: u32, n: u32) -> u32
    requires { (turned_of st table.now marks.old k output.old n).count ≤ 65536 }
    ensures { ◌≡◌ {A = Total} (record { count = result; marks = marks.new; output = output.new }) (turned_of st table.now marks.old k output.old n) }
{
    match open(st, table, marks, Cursor::WHOLE_RUN, k) {
        Ok(cursor) => step_on(st, table, marks, output, cursor, n),
        Err(_) => n,
    }
}

// Every progression of a state in turn; answers how many packets there are.
fn all_turns(st: State, table: &[u8], marks: &mut [u8], output: &mut [u8]) -> u32
    requires { (hosted_of st.progressions st table.now marks.old 0 output.old 0).count ≤ 65536 }
    ensures { ◌≡◌ {A = Total} (record { count = result; marks = marks.new; output = output.new }) (hosted_of st.progressions st table.now marks.old 0 output.old 0) }
{
    let mut count = 0;
    for k in 0..st.progressions {
        count = turn(st, table, marks, output, k, count);
    }
    count
}

// Sets a sheet up and lists its packets by single calls; answers how many there are, or -1 to -8, and nothing changes.
#[unsafe(no_mangle)]
pub extern "C" fn bonxigarth_stepped_run(
    sheet: &[u8],
    table: &mut [u8],
    marks: &mut [u8],
    output: &mut [u8],
) -> i32
    ensures says { result ≡ (whole_run_of sheet.now table.old marks.old output.old).number }
    ensures written { table.new ≡ (whole_run_of sheet.now table.old marks.old output.old).table }
    ensures marked { marks.new ≡ (whole_run_of sheet.now table.old marks.old output.old).marks }
    ensures listed { output.new ≡ (whole_run_of sheet.now table.old marks.old output.old).output }
{
    match setup_for(sheet, table, marks, Output::Records(output.len())) {
        Ok(st) => all_turns(st, table, marks, output) as i32,
        Err(refusal) => i32::from(refusal),
    }
}
