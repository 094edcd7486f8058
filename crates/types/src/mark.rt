// A mark: whether it is free for a viewer, marking it, and clearing it. A mark is a byte of eight bits, of which viewer v owns the one of weight 2^v. No other
// function looks into a byte of the marks.
ghost use Rattle.std.specs.Prelude.{◌≡◌};
ghost use Rattle.laws.specs.Marks.{free_byte, cleared_byte, free_at, clear_at};
ghost use Rattle.types.specs.Viewers.{set_byte, set_at};

use crate::cursor::Cursor;

fn is_clear(b: u8, viewer: u32) -> bool
    ensures { result ≡ free_byte viewer b }
{
    if viewer < Cursor::VIEWERS {
        (b >> viewer) % 2 == 0
    } else {
        true
    }
}

fn with_bit(b: u8, viewer: u32) -> u8
    ensures { result ≡ set_byte viewer b }
{
    if viewer < Cursor::VIEWERS {
        if (b >> viewer) % 2 == 0 {
            return b + (1u8 << viewer);
        }
    }
    b
}

fn without_bit(b: u8, viewer: u32) -> u8
    ensures { result ≡ cleared_byte viewer b }
{
    if viewer < Cursor::VIEWERS {
        if (b >> viewer) % 2 != 0 {
            return b - (1u8 << viewer);
        }
    }
    b
}

// The mark at i is free for a viewer; where there is none, it is.
pub fn is_free(marks: &[u8], i: usize, viewer: u32) -> bool
    ensures { result ≡ free_at viewer marks.now i }
{
    if i < marks.len() {
        is_clear(marks[i], viewer)
    } else {
        true
    }
}

// Marks it for a viewer; where there is none, or no such viewer, nothing.
pub fn set(marks: &mut [u8], i: usize, viewer: u32)
    ensures { marks.new ≡ set_at viewer marks.old i }
{
    if i < marks.len() {
        marks[i] = with_bit(marks[i], viewer);
    }
}

// Clears it for a viewer; where there is none, nothing.
pub fn clear(marks: &mut [u8], i: usize, viewer: u32)
    ensures { marks.new ≡ clear_at viewer marks.old i }
{
    if i < marks.len() {
        marks[i] = without_bit(marks[i], viewer);
    }
}
