// Positions of a progression, and the cursor that stands before, at, or after them.
ghost use Rattle.std.specs.Prelude.{◌≡◌};
ghost use Rattle.types.specs.State.{fresh_cursor, ended_cursor};

// One packet, and the point of the tile at which it is met (0 in orders LRCP and RLCP).
#[derive(Clone, Copy, PartialEq, Eq)]
pub struct Position {
    pub layno: u32,
    pub resno: u32,
    pub compno: u32,
    pub precno: u32,
    pub x: u32,
    pub y: u32,
}

#[derive(Clone, Copy, PartialEq, Eq)]
pub enum Place {
    Fresh,
    At(Position),
    Ended,
}

#[derive(Clone, Copy, PartialEq, Eq)]
pub struct Cursor {
    // the viewer by whose bit of the marks it goes, from 0
    pub viewer: u32,
    // the number of its progression, from 0
    pub progression: u32,
    pub place: Place,
}

impl Cursor {
    // how many viewers follow a tile
    pub const VIEWERS: u32 = 8;

    // whose the whole run is
    pub const WHOLE_RUN: u32 = 0;

    // Before the first position.
    pub fn fresh(viewer: u32, progression: u32) -> Self
        ensures { result ≡ fresh_cursor viewer progression }
    {
        Cursor {
            viewer,
            progression,
            place: Place::Fresh,
        }
    }

    // After the last position, for good.
    pub fn ended(viewer: u32, progression: u32) -> Self
        ensures { result ≡ ended_cursor viewer progression }
    {
        Cursor {
            viewer,
            progression,
            place: Place::Ended,
        }
    }
}
