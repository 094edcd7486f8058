// The listing of a progression, by its order, and of all of them in turn: what only the orders by points need is prepared once one of these is met.
ghost use Rattle.std.specs.Prelude.{◌≡◌, false, ℕ, List};
ghost use Rattle.packets.specs.Tile.{index_of};
ghost use Rattle.types.specs.Orders.{by_points};
ghost use Rattle.packets.specs.Sound.{positions_for};
ghost use Rattle.packets.specs.Meaning.{Sound};
ghost use Rattle.walks.specs.FromSound.{AllFilled};
ghost use Rattle.walks.specs.Plan.{Planned};
ghost use Rattle.walks.specs.Counting.{AllCounted};
ghost use Rattle.walks.specs.Running.{Ran, run_at, total, total_of, CountedIn, PreparedIn, SomeRun, ListsPlanned};
ghost use Rattle.walks.specs.RunAll.{from_on, RestIn};

use crate::by_resolution::ByResolution;
use crate::count::count_precincts;
use crate::list::Run;
use crate::plan::{Plan, plan_of};
use crate::prepare::prepare;
use crate::prepared::Prepared;
use crate::row::Firsts;
use types::cursor::Cursor;
use types::order::Order;
use types::state::State;

impl Run<'_> {
    // Lists a planned progression whose order is not by points.
    #[inline(always)]
    fn list_counted(&mut self, counts: &ByResolution<u32>, plan: Plan)
        requires { SomeRun (CountedIn counts.now) plan self.old × (by_points plan.order ≡ false) }
        ensures { ListsPlanned (CountedIn counts.now) plan self.old self.new }
    {
        let w = plan.walk;
        match plan.order {
            Order::Lrcp => self.list_lrcp(counts, w),
            Order::Rlcp => self.list_rlcp(counts, w),
            _ => {}
        }
    }

    // Lists any planned progression.
    fn list_progression(
        &mut self,
        counts: &ByResolution<u32>,
        row: &mut Firsts,
        prep: &ByResolution<Prepared>,
        plan: Plan,
    )
        requires { SomeRun (PreparedIn counts.now prep.now) plan self.old }
        ensures { ListsPlanned (PreparedIn counts.now prep.now) plan self.old self.new }
    {
        let w = plan.walk;
        match plan.order {
            Order::Rpcl => self.list_rpcl(row, prep, w),
            Order::Pcrl => self.list_pcrl(row, prep, w),
            Order::Cprl => self.list_cprl(row, prep, w),
            _ => self.list_counted(counts, plan),
        }
    }

    // Lists the progressions of a state from number k_from on, over numbers prepared here.
    fn list_rest(&mut self, st: &State, table: &[u8], counts: &ByResolution<u32>, k_from: u32)
        requires { RestIn st.now table.now counts.now self.old k_from }
        ensures { Ran self.old self.new (total_of (index_of st.now) (total self.old) (from_on st.now table.now k_from)) }
    {
        let mut prep = ByResolution::blank();
        prepare(&mut prep, table, *st);
        let mut row = ByResolution::blank();
        'runs: for k in k_from..st.progressions {
            let plan = plan_of(st, k, Cursor::WHOLE_RUN);
            self.list_progression(counts, &mut row, &prep, plan);
        }
    }
}

// Lists every progression of a state in turn; answers how many packets there are.
pub fn list_all(st: State, table: &[u8], marks: &mut [u8], output: &mut [u8]) -> u32
    requires { Sound st table.now marks.old }
    ensures { run_at result marks.new output.new ≡ total_of (index_of st) (run_at 0 marks.old output.old) (from_on st table.now 0) }
{
    let mut counts = ByResolution::blank();
    count_precincts(&mut counts, table, &st);
    let mut run = Run {
        marks,
        output,
        count: 0,
    };
    'runs: for k in 0..st.progressions {
        let plan = plan_of(&st, k, Cursor::WHOLE_RUN);
        if plan.order.by_points() {
            run.list_rest(&st, table, &counts, k);
            return run.count;
        }
        run.list_counted(&counts, plan);
    }
    run.count
}
