// Kind 1: a sheet, and how many bytes are lent for its table.
use crate::say::line;
use crate::sum::of_items;
use bench::sheets::{make, make_number};

// With the table's length, or the line.
pub fn make_line(rt: &HostRuntime, sheet: &[u8], lent: &mut [u8]) {
    lent.fill(165);
    let made = make(sheet, lent);
    let number = make_number(made);
    let at = made.unwrap_or_else(|rejected| rejected.line as usize);
    let sum = of_items(lent);
    line(rt, &[1, number.into(), at as u64], sum);
}
