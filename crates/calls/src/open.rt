// Opening a progression for a viewer (01, 'Numbers that come back', and 02, P4).
ghost use Rattle.std.specs.Prelude.{◌≡◌};
ghost use Rattle.types.specs.Answers.{of_opened};
ghost use Rattle.packets.specs.Calls.{open_of};

use soundness::followed_sound;
use types::answer::NotOpened;
use types::cursor::Cursor;
use types::followed::Followed;

// A fresh cursor of a viewer in a progression, over the marks as they are.
pub fn open(
    f: Followed,
    table: &[u8],
    marks: &[u8],
    viewer: u32,
    progression: u32,
) -> Result<Cursor, NotOpened>
    ensures { of_opened result ≡ open_of f table.now marks.now viewer progression }
{
    if !followed_sound(f, table, marks, viewer) {
        return Err(NotOpened::Unsound);
    }
    if Cursor::VIEWERS <= viewer {
        return Err(NotOpened::NoViewer);
    }
    if f.state.progressions <= progression {
        return Err(NotOpened::NoSuch);
    }
    Ok(Cursor::fresh(viewer, progression))
}
