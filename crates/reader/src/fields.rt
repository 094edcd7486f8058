// The fields of a sheet that has no refusal, by where their records stand.
ghost use Rattle.std.specs.Prelude.{◌≡◌};
ghost use Rattle.packets.specs.Sheet.{read_verdict, fields_of};

use crate::record::Record;
use types::state::State;

pub(crate) fn fields(sheet: &[u8]) -> State
    requires { read_verdict sheet.now ≡ 0 }
    ensures { result ≡ fields_of sheet.now }
{
    let (records, _) = sheet.as_chunks::<{ State::RECORD_BYTES }>();
    let tile = Record { bytes: &records[0] };
    let components = tile.word(6);
    let progressions = tile.word(7);
    let mut out = State {
        tx0: tile.word(1),
        ty0: tile.word(2),
        tx1: tile.word(3),
        ty1: tile.word(4),
        layers: tile.word(5),
        components,
        progressions,
        ..State::empty()
    };
    let mut at: usize = 1;
    for c in 0..components as usize {
        let record = Record {
            bytes: &records[at],
        };
        let component = record.component();
        out.comps[c] = component;
        at += 1 + component.resolutions as usize;
    }
    for k in 0..progressions as usize {
        let record = Record {
            bytes: &records[at + k],
        };
        out.changes[k] = record.progression();
    }
    out
}
