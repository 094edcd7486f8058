// Joining a tile (02, P4 and P8): a viewer starts anew, and the others go on.
ghost use Rattle.std.specs.Prelude.{◌≡◌};
ghost use Rattle.types.specs.Answers.{of_joined};
ghost use Rattle.packets.specs.Calls.{join_of};

use crate::marks::clear_for;
use soundness::marks_needed;
use soundness::totals::total;
use types::answer::{AfterJoin, NotJoined};
use types::cursor::Cursor;
use types::followed::Followed;

// Clears a viewer's bit in the marks that are needed and gives it its total anew, and nothing else; or -9 or -15, and nothing changes.
pub fn join(f: Followed, table: &[u8], marks: &mut [u8], viewer: u32) -> AfterJoin
    ensures says { of_joined result.said ≡ (join_of f table.now marks.old viewer).number }
    ensures counts { result.followed ≡ (join_of f table.now marks.old viewer).followed }
    ensures cleared { marks.new ≡ (join_of f table.now marks.old viewer).marks }
{
    match marks_needed(f, table, marks, viewer) {
        Some(n) => {
            if viewer < Cursor::VIEWERS {
                clear_for(marks, n as usize, viewer);
                AfterJoin {
                    said: Ok(()),
                    followed: f.with_total(viewer, total(f.state, table)),
                }
            } else {
                AfterJoin {
                    said: Err(NotJoined::NoViewer),
                    followed: f,
                }
            }
        }
        None => AfterJoin {
            said: Err(NotJoined::Unsound),
            followed: f,
        },
    }
}
