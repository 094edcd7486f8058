// A run, and what a listing goes through: a packet, the layers of a precinct, the precinct at a point.
ghost use Rattle.std.specs.Prelude.{◌≡◌, ◌*◌, ◌<◌, ◌≤◌, length};
ghost use Rattle.walks.specs.Marks.{mark_by};
ghost use Rattle.walks.specs.Records.{put_packet};
ghost use Rattle.walks.specs.Running.{Ran, total};
ghost use Rattle.walks.specs.AtPoint.{layers_at, cell_at};
ghost use Rattle.walks.specs.Listing.{listed_one, SomeListing, Lists};
ghost use Rattle.walks.specs.Layers.{LayeredAt, CelledAt};

use crate::by_resolution::ByResolution;
use crate::cell::cell_from;
use crate::prepared::Prepared;
use crate::walk::Walk;
use types::cursor::{Cursor, Position};
use types::mark;
use words::{Four, put_four};

// A run of listings: the marks and the output that are lent to it, and how many packets it has listed. The listings that are called at more than one place are
// inlined, so that the compiler keeps these fields in registers in their loops.
#[derive(Drop)]
pub(crate) struct Run<'a> {
    pub marks: &'a mut [u8],
    pub output: &'a mut [u8],
    pub count: u32,
}

// The record of a packet, as record n of the output; where there is no room for all of it, nothing.
fn put_packet(output: &mut [u8], n: u32, p: Position)
    requires { n ≤ 65536 }
    ensures { output.new ≡ put_packet output.old (16 * n) p }
{
    put_four(
        output,
        16 * n as usize,
        Four {
            a: p.layno,
            b: p.resno,
            c: p.compno,
            d: p.precno,
        },
    );
}

impl Run<'_> {
    // Marks a packet and writes it as the next record, unless it is marked.
    #[inline(always)]
    pub(crate) fn list_packet(&mut self, w: Walk, p: Position)
        requires { (mark_by w p < 65536) × (mark_by w p < length self.old.marks.now) × (self.old.count ≤ 65536) }
        ensures { Ran self.old self.new (listed_one w p (total self.old)) }
    {
        let i = w.index(p);
        let marks = &mut *self.marks;
        if mark::is_free(marks, i, Cursor::WHOLE_RUN) {
            mark::set(marks, i, Cursor::WHOLE_RUN);
            put_packet(self.output, self.count, p);
            self.count += 1;
        }
    }

    // Lists the layers of a precinct, which is met at the point of p.
    pub(crate) fn list_layers(&mut self, w: Walk, p: Position)
        requires { SomeListing (LayeredAt w p) (layers_at p 0) self.old }
        ensures { Lists (LayeredAt w p) (layers_at p 0) self.old self.new }
    {
        'ls: for l in 0..w.layno1 {
            self.list_packet(w, Position { layno: l, ..p });
        }
    }

    // Lists the layers of the precinct that p's component and resolution meet at its point, if they meet one; first tells what the row meets (cell::row_at).
    pub(crate) fn list_cell(
        &mut self,
        prep: &ByResolution<Prepared>,
        first: Option<u32>,
        w: Walk,
        p: Position,
    )
        requires { SomeListing (CelledAt prep.now first w p) (cell_at p) self.old }
        ensures { Lists (CelledAt prep.now first w p) (cell_at p) self.old self.new }
    {
        if let Some(k) = cell_from(prep, first, p.resno, p.compno, p.x) {
            self.list_layers(w, Position { precno: k, ..p });
        }
    }
}
