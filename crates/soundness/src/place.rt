// Whether a cursor's place is one that its progression admits (01, 'Sound means').
ghost use Rattle.std.specs.Prelude.{◌≡◌, ◌*◌, ◌≤◌, ◌<◌};
ghost use Rattle.geometry.specs.Axis.{line_of};
ghost use Rattle.packets.specs.Positions.{positions_of};
ghost use Rattle.packets.specs.Table.{sheet_at};
ghost use Rattle.packets.specs.Meaning.{Fit};
ghost use Rattle.packets.specs.Sound.{is_in, place_sound, positions_for};
ghost use Rattle.soundness.specs.Points.{in_range, counted_of, met_of, position_test, Counts};
ghost use Rattle.soundness.specs.Reached.{Reached};

use crate::sides::Sides;
use geometry::axis::Line;
use types::cursor::{Place, Position};
use types::order::{Order, Range};
use types::state::{Progression, State};
use types::table::Entry;

// A position is in a progression's ranges.
fn in_range(g: Range, p: Position) -> bool
    ensures { result ≡ in_range g p }
{
    (p.layno < g.layno1)
        & ((g.resno0 <= p.resno)
            & ((p.resno < g.resno1) & ((g.compno0 <= p.compno) & (p.compno < g.compno1))))
}

// Orders LRCP and RLCP: one of the resolution's precincts, with no point.
fn counted(e: Entry, p: Position) -> bool
    requires { e.width * e.height ≤ 65536 }
    ensures { result ≡ counted_of (e.width * e.height) p }
{
    (p.precno < e.width * e.height) & ((p.x == 0) & (p.y == 0))
}

// The precinct that is met at the point, if there are any.
fn met(x: Line, y: Line, e: Entry, p: Position) -> bool
    requires { Counts (line_of x) (line_of y) e }
    ensures { result ≡ met_of (line_of x) (line_of y) e.width (e.width * e.height) p }
{
    if e.width * e.height != 0 && y.meets(p.y) && x.meets(p.x) {
        let column = x.column(p.x);
        let row = y.column(p.y);
        return p.precno == column + row * e.width;
    }
    false
}

// A position in range, of a resolution that there is.
fn of_resolution(st: State, table: &[u8], order: Order, p: Position) -> bool
    requires { Reached st table.now p.compno p.resno }
    ensures { result ≡ position_test (sheet_at st table.now) order p }
{
    let sides = Sides::of(st, table, p.compno, p.resno);
    match order {
        Order::Lrcp | Order::Rlcp => counted(sides.entry, p),
        Order::Rpcl | Order::Pcrl | Order::Cprl => met(sides.x, sides.y, sides.entry, p),
        Order::NoPositions => false,
    }
}

// The positions of a progression have p among them.
fn listed(st: State, table: &[u8], q: Progression, p: Position) -> bool
    requires { Fit st table.now }
    ensures { result ≡ is_in p (positions_of (sheet_at st table.now) q) }
{
    let g = Range::of(st, q);
    let comps = st.comps;
    if g.components_good(st) && in_range(g, p) && p.resno < comps[p.compno as usize].resolutions {
        return of_resolution(st, table, Order::of(q.prg), p);
    }
    false
}

// The place of a cursor of progression k is fresh, ended, or at a position that the progression has.
pub(crate) fn admitted(st: State, table: &[u8], k: u32, place: Place) -> bool
    requires { Fit st table.now × (k < st.progressions) }
    ensures { result ≡ place_sound place (positions_for st table.now k) }
{
    match place {
        Place::Fresh | Place::Ended => true,
        Place::At(p) => {
            let changes = st.changes;
            listed(st, table, changes[k as usize], p)
        }
    }
}
