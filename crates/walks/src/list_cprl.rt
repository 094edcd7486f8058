// The listing in the order CPRL: one component after the other, each in the order PCRL (T.800 B.12.1.5).
ghost use Rattle.std.specs.Prelude.{◌≡◌};
ghost use Rattle.walks.specs.Cprl.{wholly};
ghost use Rattle.walks.specs.Listing.{SomeListing, Lists, ReadyBy};

use crate::by_resolution::ByResolution;
use crate::list::Run;
use crate::prepared::Prepared;
use crate::row::Firsts;
use crate::walk::Walk;

impl Run<'_> {
    // Lists every packet of the ranges. Kept beside list_rpcl: one function for both would take the range and the part as closures.
    pub(crate) fn list_cprl(&mut self, row: &mut Firsts, prep: &ByResolution<Prepared>, w: Walk)
        requires { SomeListing (ReadyBy prep.now w) (wholly w) self.old }
        ensures { Lists (ReadyBy prep.now w) (wholly w) self.old self.new }
    {
        'cs: for c in w.compno0..w.compno1 {
            let one = w.part(w.resno0, w.resno1, c, c + 1);
            self.list_pcrl(row, prep, one);
        }
    }
}
