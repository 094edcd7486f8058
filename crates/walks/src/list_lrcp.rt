// The listing in the order LRCP: layer, resolution, component, precinct (T.800 B.12.1.1).
ghost use Rattle.walks.specs.Lrcp.{wholly};
ghost use Rattle.walks.specs.Listing.{SomeListing, Lists, CountedBy};

use crate::by_resolution::ByResolution;
use crate::list::Run;
use crate::walk::Walk;

impl Run<'_> {
    // Lists every packet of the ranges.
    pub(crate) fn list_lrcp(&mut self, counts: &ByResolution<u32>, w: Walk)
        requires { SomeListing (CountedBy counts.now w) (wholly w) self.old }
        ensures { Lists (CountedBy counts.now w) (wholly w) self.old self.new }
    {
        'ls: for l in 0..w.layno1 {
            'rs: for r in w.resno0..w.resno1 {
                self.list_level(counts, w, l, r);
            }
        }
    }
}
