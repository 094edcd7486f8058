// How many packets some progression admits (02, P8): each precinct in the most layers that a progression over it has.
ghost use Rattle.std.specs.Prelude.{◌≡◌, ℕ, ◌≤◌, ◌<◌, length, get_or};
ghost use Rattle.packets.specs.Totals as spec;
ghost use Rattle.packets.specs.Table.{sheet_at};
ghost use Rattle.packets.specs.Meaning.{Fit};
ghost use Rattle.soundness.specs.Totals.{layers_for, Ranged, Raised, layers_over, Few, packets_of, FewFrom, precincts_from};

use types::order::{Order, Range};
use types::state::{Progression, State};
use types::table::Entry;

// Places for the resolutions of a component.
const LEVELS: usize = State::MAX_RESOLUTIONS as usize;

// The layers of a progression's range; none if the progression has no positions.
fn layers_of(st: State, q: Progression, g: Range) -> u32
    ensures { result ≡ layers_for st q g }
{
    if !matches!(Order::of(q.prg), Order::NoPositions) && g.components_good(st) {
        return g.layno1;
    }
    0
}

// The ranges of all progressions, each with the layers that it counts.
fn ranges_of(st: State) -> [Range; State::PROGRESSION_PLACES]
    requires { st.progressions ≤ 32 }
    ensures { Ranged st result st.progressions }
{
    // copied out: going by number into an array of the state itself copies all of the state
    let changes = st.changes;
    let nothing = Range {
        layno1: 0,
        resno0: 0,
        resno1: 0,
        compno0: 0,
        compno1: 0,
    };
    let mut ranges = [nothing; State::PROGRESSION_PLACES];
    for k in 0..st.progressions as usize {
        let q = changes[k];
        let g = Range::of(st, q);
        ranges[k] = Range {
            layno1: layers_of(st, q, g),
            ..g
        };
    }
    ranges
}

// The resolutions from a up to b have at least so many layers.
fn raise(most: &mut [u32; LEVELS], a: u32, b: u32, layers: u32)
    requires { (b ≤ 33) × (length most.old ≡ 33) }
    ensures { Raised most.old a b layers most.new }
{
    for r in a as usize..b as usize {
        most[r] = most[r].max(layers);
    }
}

// The layers in which some of the ranges admits packets of component c, which has m resolutions, by resolution.
fn layers_over(ranges: &[Range], c: u32, m: u32) -> [u32; LEVELS]
    requires { m ≤ 33 }
    ensures { (r : ℕ) → r < m → get_or result r 0 ≡ layers_over ranges.now c r }
{
    let mut most = [0u32; LEVELS];
    for g in ranges {
        if (g.compno0 <= c) & (c < g.compno1) {
            raise(&mut most, g.resno0, g.resno1.min(m), g.layno1);
        }
    }
    most
}

// The packets of component c in those layers: its first entry in the table is number e.
fn of_component(ranges: &[Range], table: &[u8], e: usize, c: u32, m: u32) -> u32
    requires { Few ranges.now table.now e c m }
    ensures { result ≡ packets_of ranges.now table.now e c m }
{
    let layers = layers_over(ranges, c, m);
    let mut sum: u32 = 0;
    for r in 0..m as usize {
        let entry = Entry::at(table, e + r);
        sum += entry.width * entry.height * layers[r];
    }
    sum
}

// How many packets some progression admits: component by component, in the most layers.
fn of_all(st: State, table: &[u8]) -> u32
    requires { Fit st table.now }
    ensures { result ≡ spec.total (sheet_at st table.now) }
{
    let places = ranges_of(st);
    let ranges = &places[..st.progressions as usize];
    let comps = st.comps;
    let mut sum: u32 = 0;
    let mut e: usize = 0;
    for c in 0..st.components {
        let m = comps[c as usize].resolutions;
        sum += of_component(ranges, table, e, c, m);
        e += m as usize;
    }
    sum
}

// The precincts that the entries from number a up to b count.
fn precincts_from(table: &[u8], a: usize, b: usize) -> u32
    requires { FewFrom table.now a b }
    ensures { result ≡ precincts_from table.now a b }
{
    let mut sum: u32 = 0;
    for i in a..b {
        let entry = Entry::at(table, i);
        sum += entry.width * entry.height;
    }
    sum
}

// How many packets a single progression admits: the precincts in its range, each in all layers of the range.
// kept beside of_all: most sheets have one progression, and so counted it takes two thirds of the instructions (docs/DECISIONS.md, 65)
fn of_one(st: State, table: &[u8]) -> u32
    requires { Fit st table.now × (st.progressions ≡ 1) }
    ensures { result ≡ spec.total (sheet_at st table.now) }
{
    let changes = st.changes;
    let q = changes[0];
    let g = Range::of(st, q);
    let comps = st.comps;
    let mut sum: u32 = 0;
    let mut e: usize = 0;
    for c in 0..st.components {
        let m = comps[c as usize].resolutions;
        if (g.compno0 <= c) & (c < g.compno1) {
            sum += precincts_from(table, e + g.resno0 as usize, e + g.resno1.min(m) as usize);
        }
        e += m as usize;
    }
    sum * layers_of(st, q, g)
}

// How many packets some progression admits, of a sound state: without a walk, and no mark is read.
pub fn total(st: State, table: &[u8]) -> u32
    requires { Fit st table.now }
    ensures { result ≡ spec.total (sheet_at st table.now) }
{
    if st.progressions == 1 {
        return of_one(st, table);
    }
    of_all(st, table)
}
