// What the calls answer. specs/Answers gives document 01's number and values for every case.
ghost use Rattle.std.specs.Prelude.{◌≡◌};
ghost use Rattle.types.specs.Answers.{number_of};

use crate::cursor::{Cursor, Position};
use crate::followed::Followed;

// Why setup or a whole run refuses a sheet, or what is lent with it.
#[derive(Clone, Copy, PartialEq, Eq)]
pub enum Refusal {
    // empty, no multiple of 32 bytes, or too long
    Length = -1,
    // a record is of the wrong kind or form, missing or left over
    Shape = -2,
    // a field is out of range
    Range = -3,
    // a position order whose grid is not agreed
    Grid = -4,
    // too many marks needed
    TooMany = -5,
    // lent marks, table or output too short
    Marks = -6,
    Table = -7,
    Output = -8,
}

impl From<Refusal> for i32 {
    ghost from_gives = { λ r n. n ≡ number_of r };

    fn from(refusal: Refusal) -> i32 {
        refusal as i32
    }
}

// Why a progression is not opened.
#[derive(Clone, Copy, PartialEq, Eq)]
pub enum NotOpened {
    Unsound = -9,
    NoViewer = -15,
    NoSuch = -11,
}

// Why joining, which clears a viewer's bits of the needed marks (02, P4), is refused.
#[derive(Clone, Copy, PartialEq, Eq)]
pub enum NotJoined {
    Unsound = -9,
    NoViewer = -15,
}

// What joining answers, and the state and totals after it.
#[derive(Clone, Copy)]
pub struct AfterJoin {
    pub said: Result<(), NotJoined>,
    pub followed: Followed,
}

// kept as an enum of its own: a packet, the end and a refusal, each with its cursor, are more than a value and an error
#[derive(Clone, Copy)]
pub enum Stepped {
    // 1: the packet, with its moved cursor
    Packet(Position, Cursor),
    // 0
    Ended(Cursor),
    // -9: the cursor as given
    Unsound(Cursor),
}

// What a step answers, and the state and totals after it.
#[derive(Clone, Copy)]
pub struct AfterStep {
    pub said: Stepped,
    pub followed: Followed,
}

// Why the rectangle of a precinct is not told (02, P2).
#[derive(Clone, Copy, PartialEq, Eq)]
pub enum NotLocated {
    Unsound = -9,
    NoSuch = -14,
}
