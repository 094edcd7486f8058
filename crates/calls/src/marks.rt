// Clearing the first marks: for everybody (setup), for one viewer (joining).
ghost use Rattle.std.specs.Prelude.{◌≡◌, ◌≤◌, length, replicate};
ghost use Rattle.laws.specs.Marks.{cleared_to};
ghost use Rattle.words.specs.Words.{over};

use types::mark;

// Clears the first n marks.
pub(crate) fn clear(marks: &mut [u8], n: usize)
    requires { n ≤ length marks.old }
    ensures { marks.new ≡ over (replicate n 0) marks.old }
{
    marks[..n].fill(0);
}

// Clears a viewer's bit in them.
pub(crate) fn clear_for(marks: &mut [u8], n: usize, viewer: u32)
    requires { n ≤ length marks.old }
    ensures { marks.new ≡ cleared_to viewer n marks.old }
{
    for i in 0..n {
        mark::clear(marks, i, viewer);
    }
}
