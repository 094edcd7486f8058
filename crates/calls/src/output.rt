// What a setup is to write besides table and marks, so that -8 is known before anything is written.
ghost use Rattle.std.specs.Prelude.{◌≡◌};
ghost use Rattle.calls.specs.Room.{room_for};

// So many bytes are lent for it.
#[derive(Clone, Copy)]
pub enum Output {
    Nothing,
    // a record of 16 bytes for each mark needed, at most
    Records(usize),
    // what setup reports, in 16 bytes
    Reports(usize),
}

impl Output {
    // Whether the bytes suffice for so many marks needed.
    pub(crate) fn has_room(self, needed: u32) -> bool
        ensures { result ≡ room_for self needed }
    {
        match self {
            Output::Nothing => true,
            Output::Records(bytes) => 16 * (needed as u64) <= (bytes as u64),
            Output::Reports(bytes) => 16 <= bytes,
        }
    }
}
