// The exports for C (include/bonxigarth.h): plain numbers and byte buffers.
// kept as numbers, and with clauses written out: C calls them so, and who reads the header reads them here
#![tactic(auto)]

ghost use Rattle.std.specs.Prelude.{◌≡◌};
ghost use Rattle.packets.specs.Bounds.{bounds_of};
ghost use Rattle.packets.specs.Calls.{whole_run_of};
ghost use Rattle.host.specs.Setup.{setup_for_c};

use calls::output::Output;
use calls::setup::setup_for;
use geometry::tile::{Area, Grid};
use words::{Four, put_four};

// Sets a sheet up and lists its packets; answers how many there are, or -1 to -8, and nothing changes.
#[unsafe(no_mangle)]
pub extern "C" fn bonxigarth_whole_run(
    sheet: &[u8],
    table: &mut [u8],
    marks: &mut [u8],
    output: &mut [u8],
) -> i32
    ensures says { result ≡ (whole_run_of sheet.now table.old marks.old output.old).number }
    ensures written { table.new ≡ (whole_run_of sheet.now table.old marks.old output.old).table }
    ensures marked { marks.new ≡ (whole_run_of sheet.now table.old marks.old output.old).marks }
    ensures listed { output.new ≡ (whole_run_of sheet.now table.old marks.old output.old).output }
{
    match calls::whole::whole_run(sheet, table, marks, output) {
        Ok(count) => count as i32,
        Err(refusal) => i32::from(refusal),
    }
}

// Sets a sheet up and writes what setup reports; answers 0, or -1 to -8, and nothing changes.
#[unsafe(no_mangle)]
pub extern "C" fn bonxigarth_setup(
    sheet: &[u8],
    table: &mut [u8],
    marks: &mut [u8],
    reports: &mut [u8],
) -> i32
    ensures says { result ≡ (setup_for_c sheet.now table.old marks.old reports.old).number }
    ensures written { table.new ≡ (setup_for_c sheet.now table.old marks.old reports.old).table }
    ensures cleared { marks.new ≡ (setup_for_c sheet.now table.old marks.old reports.old).marks }
    ensures told { reports.new ≡ (setup_for_c sheet.now table.old marks.old reports.old).output }
{
    let st = match setup_for(sheet, table, marks, Output::Reports(reports.len())) {
        Ok(st) => st,
        Err(refusal) => return i32::from(refusal),
    };
    let found = st.reports;
    put_four(
        reports,
        0,
        Four {
            a: found.max_prec,
            b: found.max_res,
            c: found.dx_min,
            d: found.dy_min,
        },
    );
    0
}

// Writes the bounds of a tile and answers 0; or -10, or else -8, and nothing changes.
#[unsafe(no_mangle)]
pub extern "C" fn bonxigarth_tile_bounds(
    x0: u32,
    y0: u32,
    x1: u32,
    y1: u32,
    tx0: u32,
    ty0: u32,
    tdx: u32,
    tdy: u32,
    tw: u32,
    th: u32,
    tileno: u32,
    output: &mut [u8],
) -> i32
    ensures says { result ≡ (bounds_of (record { x0 = x0; y0 = y0; x1 = x1; y1 = y1 }) (record { tx0 = tx0; ty0 = ty0; tdx = tdx; tdy = tdy; tw = tw; th = th }) tileno output.old).number }
    ensures written { output.new ≡ (bounds_of (record { x0 = x0; y0 = y0; x1 = x1; y1 = y1 }) (record { tx0 = tx0; ty0 = ty0; tdx = tdx; tdy = tdy; tw = tw; th = th }) tileno output.old).output }
{
    let image = Area { x0, y0, x1, y1 };
    let grid = Grid {
        tx0,
        ty0,
        tdx,
        tdy,
        tw,
        th,
    };
    match geometry::tile::tile_bounds(image, grid, tileno) {
        Some(a) => {
            if output.len() < 16 {
                return -8;
            }
            put_four(
                output,
                0,
                Four {
                    a: a.x0,
                    b: a.y0,
                    c: a.x1,
                    d: a.y1,
                },
            );
            0
        }
        None => -10,
    }
}
