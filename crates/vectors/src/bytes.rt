// Stored bytes, read from the front.
ghost use Rattle.std.specs.Prelude.{◌<◌};

use words::word_at;

#[derive(Clone, Copy)]
pub(crate) struct Bytes<'a>(pub(crate) &'a [u8]);

impl<'a> Bytes<'a> {
    // The next n bytes; where they are not all there, none, and nothing is left.
    pub(crate) fn part(&mut self, n: usize) -> &'a [u8] {
        let (part, rest) = self.0.split_at_checked(n).unwrap_or((&[], &[]));
        self.0 = rest;
        part
    }

    // The next n bytes, which zeros fill up to a multiple of 4.
    pub(crate) fn padded(&mut self, n: usize) -> &'a [u8] {
        let part = self.part(n);
        self.part((4 - n % 4) % 4);
        part
    }

    // The next n rows of N bytes; none where they are not all there.
    pub(crate) fn rows<const N: usize>(&mut self, n: u32) -> &'a [[u8; N]]
        requires { 0 < N }
    {
        let (rows, _) = self.part(N.saturating_mul(n as usize)).as_chunks();
        rows
    }

    // The next N words; 0 for one that is not there.
    pub(crate) fn words<const N: usize>(&mut self) -> [u32; N] {
        let mut words = [0; N];
        for word in &mut words {
            *word = word_at(self.part(4), 0);
        }
        words
    }
}
