// Reads a sheet (01, 'The sheet'): the first refusal -1, -2, -3 in reading order, or its fields.
#![tactic(auto)]

mod fields;
mod judge;
mod record;

ghost use Rattle.std.specs.Prelude.{◌≡◌};
ghost use Rattle.types.specs.Answers.{of_set_up};
ghost use Rattle.reader.specs.Reader.{read_of};

use types::answer::Refusal;
use types::state::State;

// The sheet's fields, what setup reports still 0; or its first refusal.
pub fn read(sheet: &[u8]) -> Result<State, Refusal>
    ensures { of_set_up result ≡ read_of sheet.now }
{
    judge::judge(sheet)?;
    Ok(fields::fields(sheet))
}
