// A record of a sheet: eight words of four bytes. The contracts take its bytes for a sheet of one record.
ghost use Rattle.std.specs.Prelude.{◌≡◌, ◌≤◌};
ghost use Rattle.packets.specs.Sheet.{wd, unnamed, judged, component_at, progression_at};
ghost use Rattle.packets.specs.Sheet.{tile_verdict, component_verdict, resolution_verdict, progression_verdict, volume_verdict, whole_tile_verdict};
ghost use Rattle.reader.specs.Reader.{verdict_of};

use types::answer::Refusal;
use types::state::{Component, Progression, State};
use words::word_at;

#[derive(Clone, Copy)]
pub(crate) struct Record<'a> {
    pub bytes: &'a [u8; State::RECORD_BYTES],
}

// Kind and unnamed words come before ranges.
fn judged(shape: bool, range: bool) -> Result<(), Refusal>
    ensures { verdict_of result ≡ judged shape range }
{
    match (shape, range) {
        (false, _) => Err(Refusal::Shape),
        (true, false) => Err(Refusal::Range),
        (true, true) => Ok(()),
    }
}

impl Record<'_> {
    // the kinds, but for those of progressions
    const TILE: u32 = 1;

    const COMPONENT: u32 = 2;

    const RESOLUTION: u32 = 3;

    pub(crate) fn word(self, k: usize) -> u32
        requires { k ≤ 8 }
        ensures { result ≡ wd self.entry.bytes.now 0 k }
    {
        let bytes = self.bytes;
        word_at(bytes, 4 * k)
    }

    // The words from word k on are 0. Kept as a loop that none of them ends, so that the compiler makes one test of all:
    // with `all` a sheet takes half as long again.
    fn no_more(self, k: usize) -> bool
        requires { k ≤ 8 }
        ensures { result ≡ unnamed self.entry.bytes.now 0 k }
    {
        let mut clear = true;
        for j in k..8 {
            clear &= self.word(j) == 0;
        }
        clear
    }

    pub(crate) fn check_tile(self) -> Result<(), Refusal>
        ensures { verdict_of result ≡ tile_verdict self.entry.bytes.now 0 }
    {
        let shape = self.word(0) == Self::TILE;
        let range = State::tile_in_range(
            self.word(1),
            self.word(2),
            self.word(3),
            self.word(4),
            self.word(5),
            self.word(6),
            self.word(7),
        );
        judged(shape, range)
    }

    pub(crate) fn check_component(self) -> Result<(), Refusal>
        ensures { verdict_of result ≡ component_verdict self.entry.bytes.now 0 }
    {
        let shape = (self.word(0) == Self::COMPONENT) & self.no_more(4);
        let range = self.component().in_range();
        judged(shape, range)
    }

    pub(crate) fn check_resolution(self) -> Result<(), Refusal>
        ensures { verdict_of result ≡ resolution_verdict self.entry.bytes.now 0 }
    {
        let shape = (self.word(0) == Self::RESOLUTION) & self.no_more(3);
        let range = State::exponents_in_range(self.word(1), self.word(2));
        judged(shape, range)
    }

    fn check_volume(self) -> Result<(), Refusal>
        ensures { verdict_of result ≡ volume_verdict self.entry.bytes.now 0 }
    {
        let shape = Progression::is_volume(self.word(0)) & self.no_more(7);
        let range = Progression::in_range(self.word(2), self.word(4), self.word(5));
        judged(shape, range)
    }

    fn check_whole_tile(self, count: u32) -> Result<(), Refusal>
        ensures { verdict_of result ≡ whole_tile_verdict self.entry.bytes.now count 0 }
    {
        let shape = (self.word(0) == Progression::WHOLE_TILE) & (self.no_more(2) & (count == 1));
        judged(shape, true)
    }

    // One of as many progressions as `count` says.
    pub(crate) fn check_progression(self, count: u32) -> Result<(), Refusal>
        ensures { verdict_of result ≡ progression_verdict self.entry.bytes.now count 0 }
    {
        if self.word(0) == Progression::WHOLE_TILE {
            self.check_whole_tile(count)
        } else {
            self.check_volume()
        }
    }

    pub(crate) fn component(self) -> Component
        ensures { result ≡ component_at self.entry.bytes.now 0 }
    {
        Component {
            dx: self.word(1),
            dy: self.word(2),
            resolutions: self.word(3),
        }
    }

    pub(crate) fn progression(self) -> Progression
        ensures { result ≡ progression_at self.entry.bytes.now 0 }
    {
        Progression {
            kind: self.word(0),
            prg: self.word(1).cast_signed(),
            resno0: self.word(2),
            compno0: self.word(3),
            layno1: self.word(4),
            resno1: self.word(5),
            compno1: self.word(6),
        }
    }
}
