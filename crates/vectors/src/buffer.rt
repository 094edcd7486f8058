// What is lent stands in a larger buffer, between guard bytes that must not change. Functions that hold large ones are kept out of line (`inline(never)`), so
// that those of one kind of case do not stand on the stack beside another's.

// A buffer is filled with this before a call.
const FILL: u8 = 0xa5;

const GUARD: usize = 16;

// Room for the largest table and the most marks, and for some bytes more.
pub(crate) const TABLE: usize = 8_496;

pub(crate) const MOST_MARKS: usize = 65_584;

// Marks, and output for them, of an accepted sheet of kind 1, which needs 2,048 at most.
pub(crate) const MARKS: usize = 2_096;

pub(crate) const OUTPUT: usize = 32_816;

// Table or marks of a small sheet.
pub(crate) const SMALL: usize = 496;

// N bytes, of which the first are lent, and guard bytes before and after them.
#[derive(Clone, Copy, PartialEq, Eq)]
pub(crate) struct Buffer<const N: usize> {
    before: [u8; GUARD],
    bytes: [u8; N],
    after: [u8; GUARD],
}

fn is_filled(bytes: &[u8]) -> bool {
    bytes.iter().all(|b| *b == FILL)
}

impl<const N: usize> Buffer<N> {
    pub(crate) fn filled() -> Self {
        Buffer {
            before: [FILL; GUARD],
            bytes: [FILL; N],
            after: [FILL; GUARD],
        }
    }

    // The first n bytes, to be written; as many as there are.
    pub(crate) fn first_mut(&mut self, n: usize) -> &mut [u8] {
        let n = n.min(N);
        &mut self.bytes[..n]
    }

    // The first n bytes, to be read; none where they are not all there.
    pub(crate) fn first(&self, n: usize) -> &[u8] {
        self.bytes.get(..n).unwrap_or(&[])
    }

    // The first n bytes, if they are all there and every other one is as filled.
    pub(crate) fn only(&self, n: usize) -> Option<&[u8]> {
        let (first, rest) = self.bytes.split_at_checked(n)?;
        let right = is_filled(&self.before) && is_filled(rest) && is_filled(&self.after);
        right.then_some(first)
    }

    // Whether the first n bytes are 0, and every other one is as filled.
    pub(crate) fn is_clear(&self, n: usize) -> bool {
        self.only(n)
            .is_some_and(|first| first.iter().all(|b| *b == 0))
    }

    // Writes to the start, as far as there is room.
    pub(crate) fn put(&mut self, from: &[u8]) {
        for (to, b) in self.bytes.iter_mut().zip(from) {
            *to = *b;
        }
    }

    pub(crate) fn get_mut(&mut self, at: usize) -> Option<&mut u8> {
        self.bytes.get_mut(at)
    }

    // Changes bits of a byte.
    pub(crate) fn flip(&mut self, at: u32, bits: u32) {
        if let Some(byte) = self.get_mut(at as usize) {
            *byte ^= (bits & 0xff) as u8;
        }
    }
}
