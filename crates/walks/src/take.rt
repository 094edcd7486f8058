// What a step takes: the first position after its cursor that is free for its viewer, marked.
ghost use Rattle.std.specs.Prelude.{◌≡◌};
ghost use Rattle.laws.specs.Runs.{seek};
ghost use Rattle.packets.specs.Tile.{index_of};
ghost use Rattle.packets.specs.Sound.{positions_for};
ghost use Rattle.packets.specs.Calls.{after};
ghost use Rattle.packets.specs.Meaning.{Sound, CursorIn};
ghost use Rattle.walks.specs.Walk.{answer_of};
ghost use Rattle.walks.specs.Taking.{marked_by};

use crate::plan::plan_of;
use crate::search::search;
use types::cursor::{Cursor, Position};
use types::mark;
use types::state::State;

pub fn take(st: State, table: &[u8], marks: &mut [u8], c: Cursor) -> Option<Position>
    requires { Sound st table.now marks.old × CursorIn st table.now c }
    ensures found { answer_of result ≡ seek c.viewer (index_of st) marks.old (after c.place (positions_for st table.now c.progression)) }
    ensures marked { marks.new ≡ marked_by c.viewer st marks.old result }
{
    let plan = plan_of(&st, c.progression, c.viewer);
    let p = search(st, table, marks, plan, c.place)?;
    mark::set(marks, plan.walk.index(p), c.viewer);
    Some(p)
}
