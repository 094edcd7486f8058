// A progression's order, and the ranges of its loops (01, 'Ranges and orders').
ghost use Rattle.std.specs.Prelude.{◌≡◌};
ghost use Rattle.types.specs.Orders.{order_of, by_points, range_of, components_good};

use crate::state::{Progression, State};

// The orders of T.800 B.12.1; any other number has no positions.
#[derive(Clone, Copy)]
pub enum Order {
    Lrcp,
    Rlcp,
    Rpcl,
    Pcrl,
    Cprl,
    NoPositions,
}

impl Order {
    // T.800, Table A.16
    pub const LRCP: i32 = 0;

    pub const RLCP: i32 = 1;

    pub const RPCL: i32 = 2;

    pub const PCRL: i32 = 3;

    pub const CPRL: i32 = 4;

    // The order with a number.
    // kept as a function: From would say no more, and docs/CONTRACTS.md names it
    pub fn of(prg: i32) -> Self
        ensures { result ≡ order_of prg }
    {
        match prg {
            Order::LRCP => Order::Lrcp,
            Order::RLCP => Order::Rlcp,
            Order::RPCL => Order::Rpcl,
            Order::PCRL => Order::Pcrl,
            Order::CPRL => Order::Cprl,
            _ => Order::NoPositions,
        }
    }

    // Whether it goes from point to point of the tile.
    pub fn by_points(self) -> bool
        ensures { result ≡ by_points self }
    {
        matches!(self, Order::Rpcl | Order::Pcrl | Order::Cprl)
    }
}

// The ranges of the loops; ends are not included. Layers start at 0.
#[derive(Clone, Copy)]
pub struct Range {
    pub layno1: u32,
    pub resno0: u32,
    pub resno1: u32,
    pub compno0: u32,
    pub compno1: u32,
}

impl Range {
    // The ranges of a progression of a state.
    pub fn of(st: State, q: Progression) -> Self
        ensures { result ≡ range_of st q }
    {
        if q.kind == Progression::WHOLE_TILE {
            return Range {
                layno1: st.layers,
                resno0: 0,
                resno1: st.reports.max_res,
                compno0: 0,
                compno1: st.components,
            };
        }
        let Progression {
            resno0,
            compno0,
            resno1,
            compno1,
            ..
        } = q;
        Range {
            layno1: q.layno1.min(st.layers),
            resno0,
            resno1,
            compno0,
            compno1,
        }
    }

    // Whether it names only components that there are; else the progression has no positions.
    pub fn components_good(self, st: State) -> bool
        ensures { result ≡ components_good st self }
    {
        (self.compno0 < st.components) & (self.compno1 <= st.components)
    }
}
