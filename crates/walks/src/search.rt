// The search of a progression: the walk of its order, from where a cursor stands, over numbers prepared for that order.
ghost use Rattle.std.specs.Prelude.{◌≡◌, true, false, ℕ, ◌<◌};
ghost use Rattle.laws.specs.Runs.{seek};
ghost use Rattle.types.specs.Orders.{by_points};
ghost use Rattle.packets.specs.Tile.{index_of};
ghost use Rattle.packets.specs.Sound.{positions_for};
ghost use Rattle.packets.specs.Calls.{after};
ghost use Rattle.packets.specs.Meaning.{Admitted};
ghost use Rattle.walks.specs.Walk.{answer_of};
ghost use Rattle.walks.specs.Search.{next_try, Startable};
ghost use Rattle.walks.specs.Plan.{Planned, SomePlanned, SearchedFrom};

use crate::by_resolution::ByResolution;
use crate::count::count_precincts;
use crate::cprl::cprl;
use crate::lrcp::lrcp;
use crate::pcrl::pcrl;
use crate::plan::Plan;
use crate::prepare::prepare;
use crate::rlcp::rlcp;
use crate::rpcl::rpcl;
use types::cursor::{Place, Position};
use types::order::Order;
use types::state::State;

// What is to be tried after p: the next layer in the orders by points, else the next precinct.
fn next_try(order: Order, p: Position) -> Position
    requires { (p.precno < 4294967295) × (p.layno < 4294967295) }
    ensures { result ≡ next_try order p }
{
    if order.by_points() {
        Position {
            layno: p.layno + 1,
            ..p
        }
    } else {
        Position {
            precno: p.precno + 1,
            ..p
        }
    }
}

// The first free position from p on, in an order by points.
fn search_points(st: State, table: &[u8], marks: &[u8], plan: Plan, p: Position) -> Option<Position>
    requires { SomePlanned st table.now plan marks.now × Startable plan.order plan.walk p × (by_points plan.order ≡ true) }
    ensures { SearchedFrom st table.now plan marks.now p result }
{
    let mut prep = ByResolution::blank();
    prepare(&mut prep, table, st);
    match plan.order {
        Order::Rpcl => rpcl(marks, &prep, plan.walk, p),
        Order::Pcrl => pcrl(marks, &prep, plan.walk, p),
        Order::Cprl => cprl(marks, &prep, plan.walk, p),
        // no other order is by points
        _ => None,
    }
}

// The first free position from p on, in an order by precinct numbers, or in none.
// kept as two functions: in one each step clears both arrays; tried and slower
fn search_counted(
    st: State,
    table: &[u8],
    marks: &[u8],
    plan: Plan,
    p: Position,
) -> Option<Position>
    requires { SomePlanned st table.now plan marks.now × Startable plan.order plan.walk p × (by_points plan.order ≡ false) }
    ensures { SearchedFrom st table.now plan marks.now p result }
{
    let mut counts = ByResolution::blank();
    count_precincts(&mut counts, table, &st);
    match plan.order {
        Order::Lrcp => lrcp(marks, &counts, plan.walk, p),
        Order::Rlcp => rlcp(marks, &counts, plan.walk, p),
        _ => None,
    }
}

// The first free position from p on.
fn search_from(st: State, table: &[u8], marks: &[u8], plan: Plan, p: Position) -> Option<Position>
    requires { SomePlanned st table.now plan marks.now × Startable plan.order plan.walk p }
    ensures { SearchedFrom st table.now plan marks.now p result }
{
    if plan.order.by_points() {
        search_points(st, table, marks, plan, p)
    } else {
        search_counted(st, table, marks, plan, p)
    }
}

// The first free position of a planned progression after a place.
pub(crate) fn search(
    st: State,
    table: &[u8],
    marks: &[u8],
    plan: Plan,
    place: Place,
) -> Option<Position>
    requires { (k : ℕ) × Planned st table.now k plan marks.now × Admitted place (positions_for st table.now k) }
    ensures { (k : ℕ) → Planned st table.now k plan marks.now → Admitted place (positions_for st table.now k) → answer_of result ≡ seek plan.walk.viewer (index_of st) marks.now (after place (positions_for st table.now k)) }
{
    match place {
        Place::Fresh => search_from(st, table, marks, plan, plan.walk.first()),
        Place::At(p) => search_from(st, table, marks, plan, next_try(plan.order, p)),
        Place::Ended => None,
    }
}
