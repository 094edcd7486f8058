// A sheet's fields as setup answers them, by value. Precinct exponents are not here: they stand in the table.
ghost use Rattle.std.specs.Prelude.{◌≡◌};
ghost use Rattle.types.specs.Ranges.{within, tile_range, component_range, exponent_range, is_volume, progression_range};
ghost use Rattle.types.specs.State.{no_component, no_progression, no_reports, empty_state};

// A component: its steps, and the number of its resolutions. It is opj_pi_comp_t.
#[derive(Clone, Copy, PartialEq, Eq)]
pub struct Component {
    pub dx: u32,
    pub dy: u32,
    pub resolutions: u32,
}

// A progression as its record has it. Names are those of opj_poc_t.
// kept as numbers, kind and prg: a state is what a caller makes of it, and soundness answers for every one (packets Sound.progression_good)
#[derive(Clone, Copy, PartialEq, Eq)]
pub struct Progression {
    // 4, 6 for one whose steps need not divide one another, or 5 for one of the whole tile
    pub kind: u32,
    pub prg: i32,
    pub resno0: u32,
    pub compno0: u32,
    pub layno1: u32,
    pub resno1: u32,
    pub compno1: u32,
}

// What setup reports: the largest precinct count and number of resolutions, and the smallest steps.
#[derive(Clone, Copy, PartialEq, Eq)]
pub struct Reports {
    pub max_prec: u32,
    pub max_res: u32,
    pub dx_min: u32,
    pub dy_min: u32,
}

#[derive(Clone, Copy, PartialEq, Eq)]
pub struct State {
    // the tile
    pub tx0: u32,
    pub ty0: u32,
    pub tx1: u32,
    pub ty1: u32,
    pub layers: u32,
    pub components: u32,
    pub progressions: u32,
    // the components in turn; all 0 beyond the last
    pub comps: [Component; State::COMPONENT_PLACES],
    // the progressions in turn; all 0 beyond the last
    pub changes: [Progression; State::PROGRESSION_PLACES],
    pub reports: Reports,
}

impl Component {
    // One with every number 0, which no sheet has.
    pub fn none() -> Self
        ensures { result ≡ no_component }
    {
        Component {
            dx: 0,
            dy: 0,
            resolutions: 0,
        }
    }

    // 01: the ranges of a component's record.
    pub fn in_range(self) -> bool
        ensures { result ≡ component_range self.dx self.dy self.resolutions }
    {
        within_range(1, State::MAX_STEP, self.dx)
            & (within_range(1, State::MAX_STEP, self.dy)
                & within_range(1, State::MAX_RESOLUTIONS, self.resolutions))
    }
}

impl Reports {
    // Those of a sheet that is not set up: every number 0.
    pub fn none() -> Self
        ensures { result ≡ no_reports }
    {
        Reports {
            max_prec: 0,
            max_res: 0,
            dx_min: 0,
            dy_min: 0,
        }
    }
}

impl Progression {
    // the kinds of record
    pub const VOLUME: u32 = 4;

    pub const WHOLE_TILE: u32 = 5;

    pub const MIXED: u32 = 6;

    pub const MAX_RESNO0: u32 = 32;

    pub const MAX_RESNO1: u32 = 33;

    // One with every number 0, which no sheet has.
    pub fn none() -> Self
        ensures { result ≡ no_progression }
    {
        Progression {
            kind: 0,
            prg: 0,
            resno0: 0,
            compno0: 0,
            layno1: 0,
            resno1: 0,
            compno1: 0,
        }
    }

    // 01, 02's P6: a kind whose record has the ranges of the loops.
    pub fn is_volume(kind: u32) -> bool
        ensures { result ≡ is_volume kind }
    {
        (kind == Progression::VOLUME) | (kind == Progression::MIXED)
    }

    // 01: the ranges of such a record.
    pub fn in_range(resno0: u32, layno1: u32, resno1: u32) -> bool
        ensures { result ≡ progression_range resno0 layno1 resno1 }
    {
        (resno0 <= Progression::MAX_RESNO0)
            & ((layno1 <= State::MAX_LAYERS) & (resno1 <= Progression::MAX_RESNO1))
    }
}

fn within_range(lo: u32, hi: u32, x: u32) -> bool
    ensures { result ≡ within lo hi x }
{
    (lo..=hi).contains(&x)
}

impl State {
    // bytes of a sheet's record
    pub const RECORD_BYTES: usize = 32;

    pub const MAX_RECORDS: usize = 577;

    pub const MAX_LAYERS: u32 = 65_535;

    pub const MAX_COMPONENTS: u32 = 16;

    pub const MAX_PROGRESSIONS: u32 = 32;

    // the places of the arrays by component and by progression
    pub const COMPONENT_PLACES: usize = 16;

    pub const PROGRESSION_PLACES: usize = 32;

    pub const MAX_STEP: u32 = 255;

    pub const MAX_RESOLUTIONS: u32 = 33;

    pub const MAX_EXPONENT: u32 = 15;

    pub const MAX_MARKS: u32 = 65_536;

    // 33 resolutions of 16 components
    pub const MAX_ENTRIES: usize = 528;

    // four for each entry
    pub const MAX_TABLE_WORDS: usize = 2112;

    // The state that comes with a refusal: every number 0.
    pub fn empty() -> Self
        ensures { result ≡ empty_state }
    {
        let comps = [Component::none(); State::COMPONENT_PLACES];
        let changes = [Progression::none(); State::PROGRESSION_PLACES];
        let reports = Reports::none();
        State {
            tx0: 0,
            ty0: 0,
            tx1: 0,
            ty1: 0,
            layers: 0,
            components: 0,
            progressions: 0,
            comps,
            changes,
            reports,
        }
    }

    // 01: the ranges of the tile's record.
    // kept as seven numbers: words of a record in the reader, fields of a state in soundness; a struct would be made for this call alone
    pub fn tile_in_range(
        tx0: u32,
        ty0: u32,
        tx1: u32,
        ty1: u32,
        layers: u32,
        components: u32,
        progressions: u32,
    ) -> bool
        ensures { result ≡ tile_range tx0 ty0 tx1 ty1 layers components progressions }
    {
        (tx0 <= tx1)
            & ((ty0 <= ty1)
                & (within_range(1, State::MAX_LAYERS, layers)
                    & (within_range(1, State::MAX_COMPONENTS, components)
                        & within_range(1, State::MAX_PROGRESSIONS, progressions))))
    }

    // 01: the range of a resolution's precinct exponents.
    pub fn exponents_in_range(pdx: u32, pdy: u32) -> bool
        ensures { result ≡ exponent_range pdx pdy }
    {
        (pdx <= State::MAX_EXPONENT) & (pdy <= State::MAX_EXPONENT)
    }
}
