// One step of a progression (01, 'Ranges and orders': "A step searches after it, in order"; opj_pi_next).
ghost use Rattle.std.specs.Prelude.{◌≡◌};
ghost use Rattle.types.specs.Answers.{of_stepped};
ghost use Rattle.packets.specs.Calls.{step_of};

use soundness::sound;
use types::answer::{AfterStep, Stepped};
use types::cursor::{Cursor, Place};
use types::followed::Followed;
use walks::take::take;

// The next packet after a cursor, marked, with the cursor moved to it and one less to come; or the ended cursor; or -9, and nothing changes.
pub fn step(f: Followed, table: &[u8], marks: &mut [u8], cursor: Cursor) -> AfterStep
    ensures says { of_stepped result.said ≡ (step_of f table.now marks.old cursor).said }
    ensures counts { result.followed ≡ (step_of f table.now marks.old cursor).followed }
    ensures marked { marks.new ≡ (step_of f table.now marks.old cursor).marks }
{
    if !sound(f, table, marks, cursor) {
        let said = Stepped::Unsound(cursor);
        return AfterStep { said, followed: f };
    }
    let st = f.state;
    let viewer = cursor.viewer;
    let progression = cursor.progression;
    match take(st, table, marks, cursor) {
        Some(p) => {
            let moved = Cursor {
                viewer,
                progression,
                place: Place::At(p),
            };
            let said = Stepped::Packet(p, moved);
            let followed = f.one_less(viewer);
            AfterStep { said, followed }
        }
        None => {
            let said = Stepped::Ended(Cursor::ended(viewer, progression));
            AfterStep { said, followed: f }
        }
    }
}
