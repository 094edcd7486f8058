// What is known of one component or of several: the largest precinct count, whether every step fits 32 bits, and the smallest step on each axis.
ghost use Rattle.std.specs.Prelude.{◌≡◌};
ghost use Rattle.survey.specs.Passing.{start_sums, joined_sums};

#[derive(Clone, Copy)]
pub(crate) struct Sums {
    // 65,537 where it is more
    pub most: u32,
    // every step of both axes
    pub fit: bool,
    // 0xffff_ffff where there is none, or where each is larger: the number that `min` leaves alone
    pub x_least: u32,
    pub y_least: u32,
}

impl Sums {
    // Before the first component.
    pub(crate) fn start() -> Self
        ensures { result ≡ start_sums }
    {
        Sums {
            most: 0,
            fit: true,
            x_least: 0xffff_ffff,
            y_least: 0xffff_ffff,
        }
    }

    // Of two groups of components together.
    pub(crate) fn joined(self, b: Sums) -> Self
        ensures { result ≡ joined_sums self b }
    {
        Sums {
            most: self.most.max(b.most),
            fit: self.fit & b.fit,
            x_least: self.x_least.min(b.x_least),
            y_least: self.y_least.min(b.y_least),
        }
    }
}
