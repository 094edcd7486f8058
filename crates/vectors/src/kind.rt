// The kinds of record, by their numbers in the files.
use crate::tally::Tally;
use crate::{accepted, limits, numbers, rectangles, steps, traces};
use std::{fmt, io};

#[derive(Clone, Copy)]
pub(crate) enum Kind {
    Accepted = 1,
    TileBounds = 2,
    Arithmetic = 3,
    Limits = 4,
    Steps = 5,
    Rectangles = 6,
    Traces = 7,
}

impl Kind {
    pub(crate) const ALL: [Kind; 7] = [
        Kind::Accepted,
        Kind::TileBounds,
        Kind::Arithmetic,
        Kind::Limits,
        Kind::Steps,
        Kind::Rectangles,
        Kind::Traces,
    ];

    // The file that has its records.
    pub(crate) fn file(self) -> &'static str {
        match self {
            Kind::Accepted | Kind::TileBounds | Kind::Arithmetic => "rust",
            Kind::Limits | Kind::Steps | Kind::Rectangles | Kind::Traces => "model",
        }
    }

    // The cases of a record: many of steps and rectangles, else one.
    pub(crate) fn replay(self, record: &[u8], tally: &mut Tally<'_, impl Print>) -> io::Result<()> {
        match self {
            Kind::Accepted => tally.case(accepted::replay(record)),
            Kind::TileBounds => tally.case(numbers::tile_bounds(record)),
            Kind::Arithmetic => tally.case(numbers::arithmetic(record)),
            Kind::Limits => tally.case(limits::replay(record)),
            Kind::Steps => steps::replay(record, tally),
            Kind::Rectangles => rectangles::replay(record, tally),
            Kind::Traces => tally.case(traces::replay(record)),
        }
    }
}

impl fmt::Display for Kind {
    fn fmt<W: fmt::Write>(&self, f: &mut fmt::Formatter<W>) -> fmt::Result {
        f.write_str(match self {
            Kind::Accepted => "accepted sheets",
            Kind::TileBounds => "tile bounds",
            Kind::Arithmetic => "arithmetic",
            Kind::Limits => "limits",
            Kind::Steps => "steps",
            Kind::Rectangles => "rectangles",
            Kind::Traces => "traces of eight viewers",
        })
    }
}
