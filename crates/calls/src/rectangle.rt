// Where on the picture a precinct is (02, P2).
ghost use Rattle.std.specs.Prelude.{◌≡◌, ◌*◌, ◌<◌};
ghost use Rattle.types.specs.Answers.{of_located};
ghost use Rattle.packets.specs.Calls.{rectangle_of};
ghost use Rattle.calls.specs.Rectangle.{area_of};

use geometry::tile::Area;
use soundness::sheet_sound;
use soundness::sides::Sides;
use types::answer::NotLocated;
use types::state::State;

// The rectangle of one of the precincts of a resolution: across by its column, down by its row.
fn area(sides: Sides, precno: u32) -> Area
    requires { precno < sides.entry.width * sides.entry.height }
    ensures { result ≡ area_of sides precno }
{
    let across = sides.x.precinct(precno % sides.entry.width);
    let down = sides.y.precinct(precno / sides.entry.width);
    Area {
        x0: across.r0,
        y0: down.r0,
        x1: across.r1,
        y1: down.r1,
    }
}

// The rectangle of a precinct on its resolution, cut to the resolution's bounds.
pub fn rectangle(
    st: State,
    table: &[u8],
    compno: u32,
    resno: u32,
    precno: u32,
) -> Result<Area, NotLocated>
    ensures { of_located result ≡ rectangle_of st table.now compno resno precno }
{
    if !sheet_sound(st, table) {
        return Err(NotLocated::Unsound);
    }
    if compno < st.components {
        if resno < st.comps[compno as usize].resolutions {
            let sides = Sides::of(st, table, compno, resno);
            if precno < sides.entry.width * sides.entry.height {
                return Ok(area(sides, precno));
            }
        }
    }
    Err(NotLocated::NoSuch)
}
