// A value for each resolution of each component. Nothing else knows where it stands.
ghost use Rattle.std.specs.Prelude.{◌≡◌, ℕ, ◌<◌, None};
ghost use Rattle.walks.specs.ByResolution.{place, IsBlank};

use types::state::State;

#[derive(Clone, Copy)]
pub(crate) struct ByResolution<T> {
    places: [[T; State::COMPONENT_PLACES]; State::MAX_RESOLUTIONS as usize],
}

// What stands where nothing is put.
pub(crate) trait Blank: Copy {
    ghost BLANK: { Self };

    const BLANK: Self;
}

impl Blank for u32 {
    ghost BLANK = { 0 };

    const BLANK: u32 = 0;
}

impl<T: Copy> Blank for Option<T> {
    ghost BLANK = { None };

    const BLANK: Option<T> = None;
}

impl<T: Blank> ByResolution<T> {
    // Nothing is put yet.
    pub(crate) fn blank() -> Self
        ensures { IsBlank T.BLANK result }
    {
        ByResolution {
            places: [[T::BLANK; State::COMPONENT_PLACES]; State::MAX_RESOLUTIONS as usize],
        }
    }
}

impl<T: Copy> ByResolution<T> {
    // That of component c at resolution r.
    pub(crate) fn at(&self, r: u32, c: u32) -> T
        requires { (r < 33) × (c < 16) }
        ensures { (d : T) → result ≡ place d self.now r c }
    {
        self.places[r as usize][c as usize]
    }

    // The others stay.
    pub(crate) fn put(&mut self, r: u32, c: u32, value: T)
        requires { (r < 33) × (c < 16) }
        ensures there { (d : T) → place d self.new r c ≡ value }
        ensures others { (d : T) (q i : ℕ) → (q ≡ r → i ≡ c → ⊥) → place d self.new q i ≡ place d self.old q i }
    {
        self.places[r as usize][c as usize] = value;
    }
}
