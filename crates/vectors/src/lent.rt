// The table and the marks that are lent to the calls, so many bytes of each.
use crate::buffer::{Buffer, MOST_MARKS, TABLE};
use crate::check::{Wrong, check};
use types::answer::Refusal;
use types::followed::Followed;

// The lengths stand beside: what is lent is less than its buffer, so that the bytes after it can be seen to stay.
#[derive(Clone, Copy, PartialEq, Eq)]
pub(crate) struct Lent<const T: usize, const M: usize> {
    pub(crate) table: Buffer<T>,
    pub(crate) table_bytes: usize,
    pub(crate) marks: Buffer<M>,
    pub(crate) mark_bytes: usize,
}

// Room for whatever a sheet may need.
pub(crate) type Largest = Lent<TABLE, MOST_MARKS>;

// Setup with so many bytes and marks lent refuses with this number, and changes nothing.
#[inline(never)]
pub(crate) fn refuses(sheet: &[u8], table: usize, marks: usize, number: i32) -> Result<(), Wrong> {
    let before = Largest::new(table, marks);
    let mut lent = before;
    check(lent.setup(sheet).is_err_and(|e| e as i32 == number))?;
    check(lent == before)
}

impl<const T: usize, const M: usize> Lent<T, M> {
    pub(crate) fn new(table_bytes: usize, mark_bytes: usize) -> Self {
        Lent {
            table: Buffer::filled(),
            table_bytes,
            marks: Buffer::filled(),
            mark_bytes,
        }
    }

    // The table to be read and the marks to be written.
    pub(crate) fn for_calls(&mut self) -> (&[u8], &mut [u8]) {
        let (table, marks) = (self.table_bytes, self.mark_bytes);
        (self.table.first(table), self.marks.first_mut(marks))
    }

    pub(crate) fn setup(&mut self, sheet: &[u8]) -> Result<Followed, Refusal> {
        let table = self.table.first_mut(self.table_bytes);
        let marks = self.marks.first_mut(self.mark_bytes);
        calls::setup::setup(sheet, table, marks)
    }

    // The whole run, with so many bytes of the output lent.
    pub(crate) fn whole_run<const O: usize>(
        &mut self,
        sheet: &[u8],
        output: &mut Buffer<O>,
        output_bytes: usize,
    ) -> Result<u32, Refusal> {
        let table = self.table.first_mut(self.table_bytes);
        let marks = self.marks.first_mut(self.mark_bytes);
        calls::whole::whole_run(sheet, table, marks, output.first_mut(output_bytes))
    }
}
