// Whether the fields of a state are in range, with nothing beyond the last component and progression (01, 'Sound means').
ghost use Rattle.std.specs.Prelude.{◌≡◌, ◌&&◌, ◌≤◌};
ghost use Rattle.packets.specs.Sound.{tile_good, components_sound, no_range, progressions_sound};
ghost use Rattle.soundness.specs.Fields.{component_fits, progression_fits};

use types::state::{Component, Progression, State};

fn tile_good(st: State) -> bool
    ensures { result ≡ tile_good st }
{
    State::tile_in_range(
        st.tx0,
        st.ty0,
        st.tx1,
        st.ty1,
        st.layers,
        st.components,
        st.progressions,
    )
}

// A component's fields are in range; where there is none they are 0.
fn component_fits(there: bool, comp: Component) -> bool
    ensures { result ≡ component_fits there comp }
{
    if there {
        comp.in_range()
    } else {
        comp == Component::none()
    }
}

fn components_sound(st: State) -> bool
    requires { st.components ≤ 16 }
    ensures { result ≡ components_sound st }
{
    let n = st.components as usize;
    let comps = st.comps;
    for (c, comp) in comps.iter().enumerate() {
        if !component_fits(c < n, *comp) {
            return false;
        }
    }
    true
}

// Nothing is said but kind and prg.
fn no_range(q: Progression) -> bool
    ensures { result ≡ no_range q }
{
    q == Progression {
        kind: q.kind,
        prg: q.prg,
        ..Progression::none()
    }
}

// A progression is of kind 4 or 6 and in range, or of kind 5 and alone; where there is none every number is 0.
fn progression_fits(there: bool, alone: bool, q: Progression) -> bool
    ensures { result ≡ progression_fits there alone q }
{
    if !there {
        return q == Progression::none();
    }
    if Progression::is_volume(q.kind) {
        return Progression::in_range(q.resno0, q.layno1, q.resno1);
    }
    (q.kind == Progression::WHOLE_TILE) & (alone & no_range(q))
}

// kept beside components_sound: one for both would take the array's type, its length and its test
fn progressions_sound(st: State) -> bool
    requires { st.progressions ≤ 32 }
    ensures { result ≡ progressions_sound st }
{
    let n = st.progressions as usize;
    for (k, q) in st.changes.iter().enumerate() {
        if !progression_fits(k < n, n == 1, *q) {
            return false;
        }
    }
    true
}

// Every rule and range of the state's own fields holds.
pub(crate) fn fields_sound(st: State) -> bool
    ensures { result ≡ (tile_good st && (components_sound st && progressions_sound st)) }
{
    tile_good(st) && components_sound(st) && progressions_sound(st)
}
