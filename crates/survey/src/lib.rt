// One survey of every resolution of every component, for setup and for soundness alike: the numbers that setup reports, whether the grid is agreed, the
// marks needed, and the words of the table. The precinct exponents are read where they stand: in a sheet's records or in a table's entries.
#![tactic(auto)]

mod axes;
mod capped;
mod component;
mod gathered;
mod grid;
mod kept;
mod places;
mod sums;

ghost use Rattle.std.specs.Prelude.{◌≡◌};
ghost use Rattle.packets.specs.Table.{table_words};
ghost use Rattle.survey.specs.Survey.{sheet_from, survey_of, kept_of};
ghost use Rattle.survey.specs.Kept.{Keeps};
ghost use Rattle.survey.specs.Passing.{findings_of};

use crate::component::Read;
use crate::places::Places;
use crate::sums::Sums;
use geometry::tile::Area;
use types::state::{Reports, State};

// Where precinct exponents stand: in the records of a sheet, or in the entries of a table.
#[derive(Clone, Copy)]
pub enum Source {
    Records,
    Entries,
}

// What is found where every range holds, and the sizes where they were to be checked.
#[derive(Clone, Copy)]
pub struct Findings {
    // the grid is agreed for every progression
    // kept as a flag: the rest counts without it, and the words of the table are kept all the same (definition `kept_of`)
    pub grid: bool,
    // the marks needed; none where they are more than 65,536
    pub needed: Option<u32>,
    // where no marks are told, the largest precinct count is 0; one above 65,537 is 65,537
    pub reports: Reports,
}

impl Findings {
    // What the sums of all components say, with whether the grid is agreed.
    fn of(grid: bool, layers: u32, components: u32, res: u32, all: Sums) -> Self
        ensures { result ≡ findings_of grid layers components res all }
    {
        let needed = capped::marks(layers, res, components, all.most);
        Findings {
            grid,
            needed,
            reports: Reports {
                max_prec: if needed.is_some() { all.most } else { 0 },
                max_res: res,
                dx_min: all.x_least.min(0x7fff_ffff),
                dy_min: all.y_least.min(0x7fff_ffff),
            },
        }
    }
}

// The survey of a state, whose table's words are kept; where a range does not hold, some may be.
fn passed(read: Read, at: Source, st: State, kept: &mut [u32]) -> Option<Findings>
    ensures found { result ≡ survey_of read.entry.bytes.now at read.entry.check st }
    ensures keeps { Keeps kept.old kept.new 0 result (table_words (sheet_from read.entry.bytes.now at st)) }
{
    if State::MAX_COMPONENTS < st.components {
        return None;
    }
    let n = st.components as usize;
    let tile = Area {
        x0: st.tx0,
        y0: st.ty0,
        x1: st.tx1,
        y1: st.ty1,
    };
    let mut places = Places::of(at);
    let mut all = Sums::start();
    let mut max_res: u32 = 0;
    // the sums of each component
    let mut parts = [Sums::start(); State::COMPONENT_PLACES];
    for c in 0..n {
        let comp = st.comps[c];
        let one = component::component(read, places, tile, comp, kept)?;
        all = all.joined(one);
        max_res = max_res.max(comp.resolutions);
        parts[c] = one;
        places = places.after(comp.resolutions);
    }
    let agreed = grid::agreed(st, all, &parts);
    Some(Findings::of(agreed, st.layers, st.components, max_res, all))
}

// Surveys the components of st with the exponents that stand in e; with check, also that the sizes after them are right. The words of the table that they
// give are written from the start of kept on, as far as there is room; where a range does not hold, nothing is found, and kept is cleared.
pub fn survey(e: &[u8], at: Source, check: bool, st: State, kept: &mut [u32]) -> Option<Findings>
    ensures found { result ≡ survey_of e.now at check st }
    ensures keeps { kept.new ≡ kept_of e.now at check st kept.old }
{
    let found = passed(Read { bytes: e, check }, at, st, kept);
    if found.is_none() {
        kept.fill(0);
    }
    found
}
