// Whether the grid is agreed (01, 'Agreed grid', and 02, P5 and P6): what the progressions want of the steps, and whether the steps have it.
ghost use Rattle.std.specs.Prelude.{◌≡◌, ◌≤◌, ◌<◌};
ghost use Rattle.survey.specs.Passing.{want_of, most_wanted, multiples, fit_between, range_fits, ranges_fit, agreed_of};

use crate::sums::Sums;
use types::order::{Order, Range};
use types::state::{Progression, State};

// What a progression wants of the steps, from the least to the most.
#[derive(Clone, Copy, PartialEq, Eq, PartialOrd, Ord)]
pub(crate) enum Want {
    Nothing,
    // those of the components in its range fit 32 bits
    OwnFit,
    // those of all components do
    AllFit,
    // and the smallest divides every other
    Multiples,
}

// What a progression wants; one of RPCL or PCRL goes over all components at each point.
fn wants(kind: u32, order: Order) -> Want
    ensures { result ≡ want_of kind order }
{
    match order {
        Order::Rpcl | Order::Pcrl if kind == Progression::MIXED => Want::AllFit,
        Order::Rpcl | Order::Pcrl => Want::Multiples,
        Order::Cprl => Want::OwnFit,
        Order::Lrcp | Order::Rlcp | Order::NoPositions => Want::Nothing,
    }
}

// The most that a progression of st wants.
fn most_wanted(st: State) -> Want
    ensures { result ≡ most_wanted st }
{
    let n = st.progressions.min(State::MAX_PROGRESSIONS) as usize;
    let mut most = Want::Nothing;
    for p in &st.changes[..n] {
        most = most.max(wants(p.kind, Order::of(p.prg)));
    }
    most
}

// The smallest steps of the first n components are multiples of those of all.
fn multiples(parts: &[Sums; State::COMPONENT_PLACES], n: usize, all: Sums) -> bool
    requires { (n ≤ 16) × (0 < all.x_least) × (0 < all.y_least) }
    ensures { result ≡ multiples parts.now n all }
{
    for p in &parts[..n] {
        let divided = (p.x_least % all.x_least == 0) & (p.y_least % all.y_least == 0);
        if !divided {
            return false;
        }
    }
    true
}

// The components from c0 up to c1 have steps that fit.
fn fit_between(parts: &[Sums; State::COMPONENT_PLACES], c0: usize, c1: usize) -> bool
    requires { c1 ≤ 16 }
    ensures { result ≡ fit_between parts.now c0 c1 }
{
    for c in c0..c1 {
        if !parts[c].fit {
            return false;
        }
    }
    true
}

// The components in the range of progression q have steps that fit, where it wants it.
fn range_fits(st: State, q: Progression, parts: &[Sums; State::COMPONENT_PLACES]) -> bool
    requires { st.components ≤ 16 }
    ensures { result ≡ range_fits st parts.now q }
{
    if wants(q.kind, Order::of(q.prg)) == Want::OwnFit {
        let g = Range::of(st, q);
        if g.components_good(st) {
            return fit_between(parts, g.compno0 as usize, g.compno1 as usize);
        }
    }
    true
}

// So for every progression of st.
fn ranges_fit(st: State, parts: &[Sums; State::COMPONENT_PLACES]) -> bool
    requires { st.components ≤ 16 }
    ensures { result ≡ ranges_fit st parts.now }
{
    let n = st.progressions.min(State::MAX_PROGRESSIONS) as usize;
    for q in &st.changes[..n] {
        if !range_fits(st, *q, parts) {
            return false;
        }
    }
    true
}

// The steps have what the progressions of st want, by the sums of all components and of each.
// Within a component every step is its own times a power of two, so that the smallest divides the others: one number a component is enough.
pub(crate) fn agreed(st: State, all: Sums, parts: &[Sums; State::COMPONENT_PLACES]) -> bool
    requires { (st.components ≤ 16) × (0 < all.x_least) × (0 < all.y_least) }
    ensures { result ≡ agreed_of st all parts.now }
{
    match most_wanted(st) {
        Want::Nothing | Want::OwnFit => all.fit || ranges_fit(st, parts),
        Want::AllFit => all.fit,
        Want::Multiples => all.fit && multiples(parts, st.components as usize, all),
    }
}
