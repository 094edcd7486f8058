// Stored positions, and the outcomes and cursors that are named by them.
use crate::bytes::Bytes;
use types::answer::Stepped;
use types::cursor::{Cursor, Place, Position};

// A position of a progression; stored as seven words.
#[derive(Clone, Copy, PartialEq, Eq)]
pub(crate) struct Met {
    pub(crate) progression: u32,
    pub(crate) position: Position,
}

// What a step answers, beside its cursor.
#[derive(Clone, Copy, PartialEq, Eq)]
pub(crate) enum Outcome {
    Packet(Met),
    Ended,
    Unsound,
}

#[derive(Clone, Copy)]
pub(crate) struct Positions<'a>(pub(crate) &'a [[u8; 28]]);

impl From<[u32; 7]> for Met {
    fn from(words: [u32; 7]) -> Met {
        let [progression, layno, resno, compno, precno, x, y] = words;
        Met {
            progression,
            position: Position {
                layno,
                resno,
                compno,
                precno,
                x,
                y,
            },
        }
    }
}

impl Outcome {
    // Whether a step from a cursor answers it: the packet with the cursor moved to it, 0 with the ended cursor, or -9 with the cursor as given.
    pub(crate) fn is(self, said: Stepped, given: Cursor) -> bool {
        let progression = given.progression;
        match said {
            Stepped::Packet(position, moved) => {
                let place = Place::At(position);
                self == Outcome::Packet(Met {
                    progression,
                    position,
                }) && moved == Cursor { place, ..given }
            }
            Stepped::Ended(last) => {
                self == Outcome::Ended && last == Cursor::ended(given.viewer, progression)
            }
            Stepped::Unsound(kept) => self == Outcome::Unsound && kept == given,
        }
    }
}

impl Positions<'_> {
    // The words of a position, counted from 0, if it is there.
    fn words(self, number: u32) -> Option<[u32; 7]> {
        let row = self.0.get(number as usize)?;
        Some(Bytes(row).words())
    }

    // The outcome of a stored number: 0, -9, or a packet's, counted from 1; none for a number of no packet.
    pub(crate) fn outcome(self, number: u32) -> Option<Outcome> {
        match number.cast_signed() {
            0 => Some(Outcome::Ended),
            -9 => Some(Outcome::Unsound),
            _ => Some(Outcome::Packet(Met::from(self.words(number - 1)?))),
        }
    }

    // The cursor of a viewer that comes from a progression's number, or from a position's (counted from 0) with a change. Change 1 has word 0 one
    // more, change 2 one less; 3 and 4 word 1, and so on. Kept as a number: all changes but two count a word.
    pub(crate) fn cursor(self, viewer: u32, number: u32, change: u32) -> Cursor {
        match change {
            15 => Cursor::fresh(viewer, number),
            16 => Cursor::ended(viewer, number),
            _ => {
                let mut words = self.words(number).unwrap_or([0; 7]);
                if let Some(change) = change.checked_sub(1)
                    && let Some(word) = words.get_mut((change / 2) as usize)
                {
                    *word = if change % 2 == 0 {
                        word.wrapping_add(1)
                    } else {
                        word.wrapping_sub(1)
                    };
                }
                let met = Met::from(words);
                Cursor {
                    viewer,
                    progression: met.progression,
                    place: Place::At(met.position),
                }
            }
        }
    }
}
