// What a walk goes over, and where a mark stands.
ghost use Rattle.std.specs.Prelude.{◌≡◌, ◌<◌};
ghost use Rattle.walks.specs.Marks.{mark_by};
ghost use Rattle.walks.specs.Part.{part_by};
ghost use Rattle.walks.specs.Search.{first_of};

use types::cursor::Position;

// Whose marks a walk goes by, and a progression's ranges, the tile and the strides, as plain numbers.
#[derive(Clone, Copy)]
pub(crate) struct Walk {
    pub viewer: u32,
    pub layno1: u32,
    pub resno0: u32,
    pub resno1: u32,
    pub compno0: u32,
    pub compno1: u32,
    pub tx0: u32,
    pub ty0: u32,
    pub tx1: u32,
    pub ty1: u32,
    pub stride_l: u32,
    pub stride_r: u32,
    pub stride_c: u32,
}

impl Walk {
    // The walk over resolutions r0 to r1 of components c0 to c1 alone.
    pub(crate) fn part(self, r0: u32, r1: u32, c0: u32, c1: u32) -> Self
        ensures { result ≡ part_by self r0 r1 c0 c1 }
    {
        Walk {
            resno0: r0,
            resno1: r1,
            compno0: c0,
            compno1: c1,
            ..self
        }
    }

    // Its first position.
    pub(crate) fn first(self) -> Position
        ensures { result ≡ first_of self }
    {
        Position {
            layno: 0,
            resno: self.resno0,
            compno: self.compno0,
            precno: 0,
            x: self.tx0,
            y: self.ty0,
        }
    }

    // Where the mark of a packet stands.
    #[tactic(auto, unfolding(crate::specs::Walk::index_by))]
    pub(crate) fn index(self, p: Position) -> usize
        requires { mark_by self p < 65536 }
        ensures { result ≡ mark_by self p }
    {
        (p.layno * self.stride_l
            + p.resno * self.stride_r
            + p.compno * self.stride_c
            + p.precno) as usize
    }
}
