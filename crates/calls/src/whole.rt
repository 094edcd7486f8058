// The whole run: setup, then every progression in turn until it ends (01, 'Modules, leaves first').
ghost use Rattle.std.specs.Prelude.{◌≡◌, ◌≤◌, IfOk};
ghost use Rattle.types.specs.Answers.{of_run};
ghost use Rattle.packets.specs.Calls.{whole_run_of};

use crate::output::Output;
use crate::setup::setup_for;
use types::answer::Refusal;
use walks::run::list_all;

// Sets a sheet up and lists its packets, a record of 16 bytes each, and answers how many; or -1 to -8, and nothing changes.
pub fn whole_run(
    sheet: &[u8],
    table: &mut [u8],
    marks: &mut [u8],
    output: &mut [u8],
) -> Result<u32, Refusal>
    ensures says { of_run result ≡ (whole_run_of sheet.now table.old marks.old output.old).number }
    ensures written { table.new ≡ (whole_run_of sheet.now table.old marks.old output.old).table }
    ensures marked { marks.new ≡ (whole_run_of sheet.now table.old marks.old output.old).marks }
    ensures listed { output.new ≡ (whole_run_of sheet.now table.old marks.old output.old).output }
    ensures few { IfOk result (λ n. n ≤ 65536) }
{
    let st = setup_for(sheet, table, marks, Output::Records(output.len()))?;
    Ok(list_all(st, table, marks, output))
}
