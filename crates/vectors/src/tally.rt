// How many cases of a kind were replayed, and how many of them were wrong.
use crate::check::Wrong;
use crate::kind::Kind;
use std::{fmt, io};

#[derive(Drop)]
pub(crate) struct Tally<'a, P> {
    rt: &'a P,
    pub(crate) kind: Kind,
    cases: u32,
    wrong: u32,
}

// One more; counts stop far beyond any file.
fn more(n: u32) -> u32 {
    n.saturating_add(1).min(1_000_000)
}

impl<'a, P: Print> Tally<'a, P> {
    pub(crate) fn new(rt: &'a P, kind: Kind) -> Self {
        Tally {
            rt,
            kind,
            cases: 0,
            wrong: 0,
        }
    }

    // One case more. A wrong one is told by its kind and its number among them, from 0.
    pub(crate) fn case(&mut self, answered: Result<(), Wrong>) -> io::Result<()> {
        if answered.is_err() {
            println!(self.rt; "wrong: kind {} number {}", self.kind as u32, self.cases)?;
            self.wrong = more(self.wrong);
        }
        self.cases = more(self.cases);
        Ok(())
    }
}

impl<P> fmt::Display for Tally<'_, P> {
    fn fmt<W: fmt::Write>(&self, f: &mut fmt::Formatter<W>) -> fmt::Result {
        write!(
            f,
            "{}: {} cases, {} wrong",
            self.kind, self.cases, self.wrong
        )
    }
}
