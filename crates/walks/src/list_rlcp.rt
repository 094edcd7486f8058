// The listing in the order RLCP: resolution, layer, component, precinct (T.800 B.12.1.2).
ghost use Rattle.walks.specs.Rlcp.{wholly};
ghost use Rattle.walks.specs.Listing.{SomeListing, Lists, CountedBy};

use crate::by_resolution::ByResolution;
use crate::list::Run;
use crate::walk::Walk;

impl Run<'_> {
    // Lists every packet of the ranges. Kept beside list_lrcp: the order of the two loops is all that they say, and one function for both would hide it.
    pub(crate) fn list_rlcp(&mut self, counts: &ByResolution<u32>, w: Walk)
        requires { SomeListing (CountedBy counts.now w) (wholly w) self.old }
        ensures { Lists (CountedBy counts.now w) (wholly w) self.old self.new }
    {
        'rs: for r in w.resno0..w.resno1 {
            'ls: for l in 0..w.layno1 {
                self.list_level(counts, w, l, r);
            }
        }
    }
}
