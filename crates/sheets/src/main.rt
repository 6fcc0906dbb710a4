// Judges the stored sheets, one line each: FILE: NUMBER at LINE, or FILE: made LENGTH. CHANGED follows where a lent byte
// that must stay did not. docs/STORED-SHEETS.md says what the set is, and how a case is added.
#![tactic(auto)]

mod cases;
mod compare;
mod lent;

use cases::cases;
use compare::compared;
use intake::load;

// 65,538: a sheet of 65,537 bytes is seen to be too long.
fn main(rt: HostRuntime) {
    let mut list = [0u8; 65536];
    let mut sheet = [0u8; 65538];
    let mut table = [0u8; 200000];
    let n = load(&rt, b"list", &mut list);
    cases(&rt, &list[..n], &mut sheet, &mut table);
    compared(&rt, &mut sheet, &mut table);
}
