// The plan of a progression, made once: its order and its walk.
ghost use Rattle.std.specs.Prelude.{◌≡◌, ◌<◌, ◌≤◌};
ghost use Rattle.packets.specs.Tile.{stride_r, stride_l};
ghost use Rattle.packets.specs.Ended.{ended_at};
ghost use Rattle.packets.specs.Grid.{change_of};
ghost use Rattle.walks.specs.Plan.{walk_for, goes_over, admits, order_in};

use crate::walk::Walk;
use types::order::{Order, Range};
use types::state::State;

#[derive(Clone, Copy)]
pub(crate) struct Plan {
    // NoPositions also where the ranges admit none
    pub order: Order,
    pub walk: Walk,
}

// The walk over a range, which ends at the largest number of resolutions: no component has one beyond.
fn walk_of(st: State, g: Range, viewer: u32) -> Walk
    requires { (stride_r st ≤ 65536) × (stride_l st ≤ 65536) }
    ensures { result ≡ walk_for st (ended_at st.reports.max_res g) viewer }
{
    let stride_c = st.reports.max_prec;
    let stride_r = st.components * stride_c;
    let stride_l = st.reports.max_res * stride_r;
    Walk {
        viewer,
        layno1: g.layno1,
        resno0: g.resno0,
        resno1: g.resno1.min(st.reports.max_res),
        compno0: g.compno0,
        compno1: g.compno1,
        tx0: st.tx0,
        ty0: st.ty0,
        tx1: st.tx1,
        ty1: st.ty1,
        stride_l,
        stride_r,
        stride_c,
    }
}

// Whether a range can admit a position: there are precincts, layers, resolutions and components, and it names only components that there are. So no walk goes
// over the layers of a range that has no resolution or no component.
fn some_admitted(st: State, g: Range) -> bool
    ensures { result ≡ admits st g }
{
    0 < st.reports.max_prec
        && 0 < g.layno1
        && g.resno0 < g.resno1.min(st.reports.max_res)
        && g.compno0 < g.compno1
        && g.components_good(st)
}

// The plan of progression k of a state, for a viewer.
#[tactic(auto, unfolding(crate::specs::Plan::order_in))]
pub(crate) fn plan_of(st: &State, k: u32, viewer: u32) -> Plan
    requires { (k < 32) × (stride_r st.now ≤ 65536) × (stride_l st.now ≤ 65536) }
    ensures { (result.order ≡ order_in st.now (change_of st.now k)) × (result.walk ≡ walk_for st.now (goes_over st.now (change_of st.now k)) viewer) }
{
    let q = st.changes[k as usize];
    let g = Range::of(*st, q);
    let order = if some_admitted(*st, g) {
        Order::of(q.prg)
    } else {
        Order::NoPositions
    };
    let walk = walk_of(*st, g, viewer);
    Plan { order, walk }
}
