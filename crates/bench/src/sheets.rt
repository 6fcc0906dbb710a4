// From a sheet to its table.
ghost use Rattle.bench.specs.Promises.{Makes, MadeNumbered};

use judge::walk::Rejected;

// The sheet's table at the front of the lent bytes, or why there is none.
pub fn make(sheet: &[u8], table: &mut [u8]) -> Result<usize, Rejected>
    ensures { Makes sheet.now table.old result table.new }
{
    maker::make::make(sheet, table)
}

// 01's number of that answer: 1 to 17, or 0 for a table.
pub fn make_number(made: Result<usize, Rejected>) -> u32
    ensures { MadeNumbered made result }
{
    maker::make::make_number(made)
}
