// From a sheet to its table.
ghost use Rattle.std.specs.Prelude.{◌≡◌};
ghost use Rattle.ffi.specs.Structs.{made_out};
ghost use Rattle.ffi.specs.Sizes.{LengthFits};
ghost use Rattle.ffi.specs.Promises.{MakesOut};

use bench::sheets::{make, make_number};
use judge::walk::Rejected;

// The number is 0 and `at` the table's length, or `at` is the line where the sheet is refused.
#[repr(C)]
#[derive(Clone, Copy)]
pub struct OrbMade {
    pub number: u32,
    pub at: u32,
}

fn made_out(made: Result<usize, Rejected>) -> OrbMade
    requires { LengthFits made }
    ensures { result ≡ made_out made }
{
    let number = make_number(made);
    match made {
        Ok(n) => OrbMade {
            number,
            at: n as u32,
        },
        Err(Rejected { line, .. }) => OrbMade { number, at: line },
    }
}

// The sheet's table at the front of the lent bytes, or why there is none.
pub fn orb_make(sheet: &[u8], table: &mut [u8]) -> OrbMade
    ensures { MakesOut sheet.now table.old result table.new }
{
    made_out(make(sheet, table))
}
