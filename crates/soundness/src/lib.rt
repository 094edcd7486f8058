// Soundness (01, 'Sound means'): the test before every call on a state.
#![tactic(auto)]

mod fields;
mod place;
pub mod sides;
pub mod totals;

ghost use Rattle.std.specs.Prelude.{◌≡◌};
ghost use Rattle.packets.specs.Sound as spec;
ghost use Rattle.packets.specs.Sound.{sheet_sound, followed_sound};
ghost use Rattle.soundness.specs.Needs.{judged_of, needs_of};

use survey::Source;
use types::cursor::Cursor;
use types::followed::Followed;
use types::state::State;
use types::table::{Entry, entries};

// How many marks a state needs, if every rule that setup establishes holds of it with its table.
fn judged(st: State, table: &[u8]) -> Option<u32>
    ensures { result ≡ judged_of st table.now }
{
    if !fields::fields_sound(st) {
        return None;
    }
    let comps = st.comps;
    if Entry::BYTES * entries(&comps, st.components as usize) <= table.len() {
        // no words are wanted
        let mut none = [0u32; 0];
        let found = survey::survey(table, Source::Entries, true, st, &mut none)?;
        if found.grid && found.reports == st.reports {
            return found.needed;
        }
    }
    None
}

// A state and a table, whatever marks and cursor there are.
pub fn sheet_sound(st: State, table: &[u8]) -> bool
    ensures { result ≡ sheet_sound st table.now }
{
    judged(st, table).is_some()
}

// How many marks are needed, if state and table are sound, the marks suffice, and of the totals the viewer's own is no larger than what is needed (02, P8).
pub fn marks_needed(f: Followed, table: &[u8], marks: &[u8], viewer: u32) -> Option<u32>
    ensures { result ≡ needs_of f table.now marks.now viewer }
{
    let needed = judged(f.state, table)?;
    if (needed as usize) <= marks.len() && f.total(viewer) <= needed {
        return Some(needed);
    }
    None
}

// Whether `marks_needed` has an answer.
pub fn followed_sound(f: Followed, table: &[u8], marks: &[u8], viewer: u32) -> bool
    ensures { result ≡ followed_sound f table.now marks.now viewer }
{
    marks_needed(f, table, marks, viewer).is_some()
}

// A sound state with its totals, and a cursor of a viewer in one of its progressions, at a place which that admits.
pub fn sound(f: Followed, table: &[u8], marks: &[u8], cursor: Cursor) -> bool
    ensures { result ≡ spec.sound f table.now marks.now cursor }
{
    let st = f.state;
    if followed_sound(f, table, marks, cursor.viewer)
        && cursor.viewer < Cursor::VIEWERS
        && cursor.progression < st.progressions
    {
        return place::admitted(st, table, cursor.progression, cursor.place);
    }
    false
}
