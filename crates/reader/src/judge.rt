// The verdict on a sheet: its records in order, the first bad one decides.
ghost use Rattle.std.specs.Prelude.{◌≡◌, IfOk};
ghost use Rattle.packets.specs.Sheet.{record_verdict, due_after, read_verdict};
ghost use Rattle.reader.specs.Due.{due_of};
ghost use Rattle.reader.specs.Reader.{verdict_of};

use crate::record::Record;
use types::answer::Refusal;
use types::state::State;

// What is still due: resolutions of the component at hand, components, progressions.
#[derive(Clone, Copy, PartialEq, Eq)]
struct Due {
    resolutions: u32,
    components: u32,
    progressions: u32,
}

impl Due {
    const NOTHING: Self = Due {
        resolutions: 0,
        components: 0,
        progressions: 0,
    };

    // What is due after a record, of a sheet with `count` progressions.
    #[tactic(auto, unfolding(packets::specs::Sheet::record_verdict, packets::specs::Sheet::due_after))]
    fn next(self, found: Record<'_>, count: u32) -> Result<Self, Refusal>
        ensures verdict { verdict_of result ≡ record_verdict found.entry.bytes.now count 0 (due_of self) }
        ensures next { IfOk result (λ d. due_of d ≡ due_after found.entry.bytes.now 0 (due_of self)) }
    {
        if 0 < self.resolutions {
            found.check_resolution()?;
            return Ok(Due {
                resolutions: self.resolutions - 1,
                ..self
            });
        }
        if 0 < self.components {
            found.check_component()?;
            return Ok(Due {
                resolutions: found.word(3),
                components: self.components - 1,
                ..self
            });
        }
        if 0 < self.progressions {
            found.check_progression(count)?;
            return Ok(Due {
                progressions: self.progressions - 1,
                ..self
            });
        }
        Err(Refusal::Shape)
    }
}

// The first refusal of a sheet, if it has one.
pub(crate) fn judge(sheet: &[u8]) -> Result<(), Refusal>
    ensures { verdict_of result ≡ read_verdict sheet.now }
{
    let (records, rest) = sheet.as_chunks::<{ State::RECORD_BYTES }>();
    let [tile, others @ ..] = records else {
        return Err(Refusal::Length);
    };
    if !rest.is_empty() || State::MAX_RECORDS < records.len() {
        return Err(Refusal::Length);
    }
    let tile = Record { bytes: tile };
    tile.check_tile()?;
    let progressions = tile.word(7);
    let mut due = Due {
        resolutions: 0,
        components: tile.word(6),
        progressions,
    };
    for bytes in others {
        due = due.next(Record { bytes }, progressions)?;
    }
    if due != Due::NOTHING {
        return Err(Refusal::Shape);
    }
    Ok(())
}
