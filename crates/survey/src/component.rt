// The resolutions of one component: their ranges, and what is gathered over them.
ghost use Rattle.std.specs.Prelude.{◌≡◌, ◌+◌, ◌*◌, ◌≤◌, ◌<◌};
ghost use Rattle.survey.specs.Passing.{exponents_at, sizes_in, entry_found, resolution_sums, component_sums};
ghost use Rattle.survey.specs.Kept.{Keeps, resolution_words, component_words};

use crate::axes::Axes;
use crate::gathered::Gathered;
use crate::kept;
use crate::places::Places;
use crate::sums::Sums;
use geometry::tile::Area;
use types::state::{Component, State};
use types::table::Entry;
use words::{Four, four_at};

// The bytes in which exponents stand, and whether the sizes after these are to be checked.
// kept as a flag: the public `survey` is asked so (definition `survey_of`)
#[derive(Clone, Copy)]
pub(crate) struct Read<'a> {
    pub bytes: &'a [u8],
    pub check: bool,
}

impl<'a> Read<'a> {
    // The sizes that stand after the exponents are these, if they are to be checked.
    fn sizes_right(self, stands: Four, width: u32, height: u32) -> bool
        ensures { result ≡ sizes_in stands self.entry.check width height }
    {
        !self.check || ((stands.c == width) & (stands.d == height))
    }

    // The entry of the resolution of this level, whose exponents stand at place at; none if something of it is out of range.
    fn entry(self, at: usize, axes: Axes, level: u32) -> Option<Entry>
        ensures { result ≡ entry_found self.entry.bytes.now at self.entry.check axes level }
    {
        // the exponents, and in a table the sizes
        let stands = four_at(self.bytes, at);
        if !State::exponents_in_range(stands.a, stands.b) {
            return None;
        }
        let entry = axes.entry(level, stands.a, stands.b);
        if !self.sizes_right(stands, entry.width, entry.height) {
            return None;
        }
        Some(entry)
    }
}

// The sums of n resolutions, whose exponents stand at these places; their entries are kept there too.
fn resolutions(read: Read, places: Places, axes: Axes, n: u32, kept: &mut [u32]) -> Option<Sums>
    requires { (places.first + places.apart * n < 65536) × (n ≤ 33) × (1 ≤ axes.x.d) × (1 ≤ axes.y.d) × (places.to < 32768) }
    ensures sums { result ≡ resolution_sums read.entry.bytes.now (exponents_at places) read.entry.check axes n }
    ensures keeps { Keeps kept.old kept.new places.to result (resolution_words read.entry.bytes.now (exponents_at places) axes n n) }
{
    let mut all = Gathered::start();
    let mut at = places.first;
    for r in 0..n {
        let level = n - 1 - r;
        let entry = read.entry(at, axes, level)?;
        kept::keep(kept, places.to + 4 * (r as usize), entry);
        all = all.with(level, entry);
        at += places.apart;
    }
    Some(all.sums(axes))
}

// The sums of a component, if its fields are in range; its entries are kept.
pub(crate) fn component(
    read: Read,
    places: Places,
    tile: Area,
    comp: Component,
    kept: &mut [u32],
) -> Option<Sums>
    requires { (places.first < 32768) × (places.apart ≤ 32) × (places.to < 32768) }
    ensures sums { result ≡ component_sums read.entry.bytes.now (exponents_at places) read.entry.check tile comp.dx comp.dy comp.resolutions }
    ensures keeps { Keeps kept.old kept.new places.to result (component_words read.entry.bytes.now (exponents_at places) tile comp.dx comp.dy comp.resolutions) }
{
    if !comp.in_range() {
        return None;
    }
    let axes = Axes::of(tile, comp.dx, comp.dy);
    resolutions(read, places, axes, comp.resolutions, kept)
}
