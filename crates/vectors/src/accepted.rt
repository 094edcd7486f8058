// Kind 1, an accepted sheet: setup with just enough lent, with too little, and with more; then every progression to its end; then the whole run.
// Words: bytes of the sheet, marks needed, resolutions, packets; four reports; then the sheet, its table, its packets.
use crate::buffer::{Buffer, MARKS, TABLE};
use crate::bytes::Bytes;
use crate::check::{Wrong, check};
use crate::lent::{Lent, refuses};
use crate::tile::Tile;
use crate::{walked, whole};
use types::state::Reports;

#[derive(Drop)]
pub(crate) struct Case<'a> {
    pub(crate) sheet: &'a [u8],
    pub(crate) needed: u32,
    pub(crate) table: &'a [u8],
    pub(crate) packets: &'a [[u8; 16]],
    // how many packets there are to be
    pub(crate) count: u32,
    reports: Reports,
}

impl<'a> Case<'a> {
    fn read(record: &'a [u8]) -> Self {
        let mut bytes = Bytes(record);
        let [
            sheet,
            needed,
            resolutions,
            count,
            max_prec,
            max_res,
            dx_min,
            dy_min,
        ] = bytes.words::<8>();
        Case {
            sheet: bytes.part(sheet as usize),
            needed,
            table: bytes.part(16 * (resolutions as usize)),
            packets: bytes.rows(count),
            count,
            reports: Reports {
                max_prec,
                max_res,
                dx_min,
                dy_min,
            },
        }
    }

    // The sheet with just enough lent.
    pub(crate) fn tile(&self) -> Result<Tile<TABLE, MARKS>, Wrong> {
        Ok(Tile::set_up(self.sheet, self.table.len(), self.needed as usize)?)
    }

    // The marks as they are left when the stored packets are listed.
    pub(crate) fn left(&self) -> Result<Buffer<MARKS>, Wrong> {
        let tile = self.tile()?;
        let mut marks = tile.lent.marks;
        for packet in self.packets {
            if let Some(mark) = marks.get_mut(tile.mark_of(Bytes(packet).words())) {
                *mark = 1;
            }
        }
        Ok(marks)
    }

    // Setup with so many bytes and marks lent beyond what is needed.
    fn set_up(&self, beyond: usize) -> Result<(), Wrong> {
        let table = self.table.len();
        let marks = self.needed as usize;
        let mut lent = Lent::<TABLE, MARKS>::new(
            table.saturating_add(beyond),
            marks.saturating_add(beyond),
        );
        let followed = lent.setup(self.sheet)?;
        check(followed.state.reports == self.reports)?;
        check(lent.table.only(table) == Some(self.table))?;
        check(lent.marks.is_clear(marks))
    }

    // One byte of the table too few: -7. One mark too few: -6, whatever is lent for the table.
    fn too_short(&self) -> Result<(), Wrong> {
        let table = self.table.len();
        let marks = self.needed as usize;
        let short = table.checked_sub(1).ok_or(Wrong)?;
        refuses(self.sheet, short, marks, -7)?;
        if let Some(short) = marks.checked_sub(1) {
            refuses(self.sheet, table, short, -6)?;
            refuses(self.sheet, 0, short, -6)?;
        }
        Ok(())
    }
}

pub(crate) fn replay(record: &[u8]) -> Result<(), Wrong> {
    let case = Case::read(record);
    case.set_up(0)?;
    case.set_up(7)?;
    case.too_short()?;
    walked::replay(&case)?;
    whole::replay(&case)
}
