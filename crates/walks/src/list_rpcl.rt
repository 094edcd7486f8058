// The listing in the order RPCL: one resolution after the other, each in the order PCRL (T.800 B.12.1.3).
ghost use Rattle.std.specs.Prelude.{◌≡◌};
ghost use Rattle.walks.specs.Rpcl.{wholly};
ghost use Rattle.walks.specs.Listing.{SomeListing, Lists, ReadyBy};

use crate::by_resolution::ByResolution;
use crate::list::Run;
use crate::prepared::Prepared;
use crate::row::Firsts;
use crate::walk::Walk;

impl Run<'_> {
    // Lists every packet of the ranges.
    pub(crate) fn list_rpcl(&mut self, row: &mut Firsts, prep: &ByResolution<Prepared>, w: Walk)
        requires { SomeListing (ReadyBy prep.now w) (wholly w) self.old }
        ensures { Lists (ReadyBy prep.now w) (wholly w) self.old self.new }
    {
        'rs: for r in w.resno0..w.resno1 {
            let one = w.part(r, r + 1, w.compno0, w.compno1);
            self.list_pcrl(row, prep, one);
        }
    }
}
