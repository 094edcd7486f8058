// A sheet that is set up, with what is lent to the calls that follow.
use crate::lent::Lent;
use geometry::math::wrapping_mul;
use types::answer::{NotJoined, NotOpened, Refusal, Stepped};
use types::cursor::Cursor;
use types::followed::Followed;

#[derive(Clone, Copy)]
pub(crate) struct Tile<const T: usize, const M: usize> {
    pub(crate) followed: Followed,
    pub(crate) lent: Lent<T, M>,
}

impl<const T: usize, const M: usize> Tile<T, M> {
    pub(crate) fn set_up(
        sheet: &[u8],
        table_bytes: usize,
        mark_bytes: usize,
    ) -> Result<Self, Refusal> {
        let mut lent = Lent::new(table_bytes, mark_bytes);
        let followed = lent.setup(sheet)?;
        Ok(Tile { followed, lent })
    }

    pub(crate) fn step(&mut self, cursor: Cursor) -> Stepped {
        let (table, marks) = self.lent.for_calls();
        let answer = calls::step::step(self.followed, table, marks, cursor);
        self.followed = answer.followed;
        answer.said
    }

    pub(crate) fn open(&self, viewer: u32, progression: u32) -> Result<Cursor, NotOpened> {
        let table = self.lent.table.first(self.lent.table_bytes);
        let marks = self.lent.marks.first(self.lent.mark_bytes);
        calls::open::open(self.followed, table, marks, viewer, progression)
    }

    pub(crate) fn join(&mut self, viewer: u32) -> Result<(), NotJoined> {
        let (table, marks) = self.lent.for_calls();
        let answer = calls::join::join(self.followed, table, marks, viewer);
        self.followed = answer.followed;
        answer.said
    }

    // The index of a packet's mark (its layer, resolution, component and precinct), by document 01's strides.
    pub(crate) fn mark_of(&self, packet: [u32; 4]) -> usize {
        let [layno, resno, compno, precno] = packet;
        let st = self.followed.state;
        let resolution = wrapping_mul(st.components, st.reports.max_prec);
        let layer = wrapping_mul(st.reports.max_res, resolution);
        let in_layer = wrapping_mul(layno, layer).wrapping_add(wrapping_mul(resno, resolution));
        let in_component = wrapping_mul(compno, st.reports.max_prec).wrapping_add(precno);
        in_layer.wrapping_add(in_component) as usize
    }
}
