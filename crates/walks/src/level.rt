// One resolution in one layer, in the order component, precinct: what the listings in the orders LRCP and RLCP go over.
ghost use Rattle.walks.specs.Counts.{InLevel, level};
ghost use Rattle.walks.specs.Listing.{SomeListing, Lists, CountedBy};

use crate::by_resolution::ByResolution;
use crate::list::Run;
use crate::walk::Walk;
use types::cursor::Position;

impl Run<'_> {
    // Lists every packet of resolution r in layer l.
    #[inline(always)]
    pub(crate) fn list_level(&mut self, counts: &ByResolution<u32>, w: Walk, l: u32, r: u32)
        requires { InLevel w l r × SomeListing (CountedBy counts.now w) (level l r w.compno0 0) self.old }
        ensures { Lists (CountedBy counts.now w) (level l r w.compno0 0) self.old self.new }
    {
        'cs: for c in w.compno0..w.compno1 {
            let precincts = counts.at(r, c);
            'ks: for k in 0..precincts {
                let p = Position {
                    layno: l,
                    resno: r,
                    compno: c,
                    precno: k,
                    x: 0,
                    y: 0,
                };
                self.list_packet(w, p);
            }
        }
    }
}
