// The cases of the list: a line for each, FILE LENT DESCRIPTION.
ghost use Rattle.std.specs.Prelude.{◌≤◌, length};

use crate::lent::{UNTOUCHED, kept};
use intake::list::each_line;
use intake::load;
use intake::say::text;
use judge::walk::Rejected;
use maker::make::make;
use spell::integers::integer;
use text::part::{past_first, up_to};
use text::refusal::refusal_number;

// The number of what a sheet is refused for, and the line.
pub fn rejected_text(rt: &HostRuntime, rejected: Rejected) {
    let number = refusal_number(rejected.refusal);
    let line = rejected.line;
    let _ = print!(rt; "{number} at {line}");
}

// What becomes of a sheet, and whether a lent byte that must stay has changed.
fn answered(rt: &HostRuntime, sheet: &[u8], lent: &mut [u8]) {
    lent.fill(UNTOUCHED);
    let made = match make(sheet, lent) {
        Ok(n) => {
            let _ = print!(rt; "made {n}");
            n
        }
        Err(rejected) => {
            rejected_text(rt, rejected);
            0
        }
    };
    kept(rt, lent, made);
}

// The number that the line goes on with; 0 where there is none, which shows in the output.
fn lent_of(rt: &HostRuntime, line: &[u8]) -> usize {
    match integer(up_to(line, 32), 6, 0, 200000) {
        Ok(n) => n as usize,
        Err(_) => {
            text(rt, b"no lent length ");
            0
        }
    }
}

// With as many bytes of the table lent as are asked, or all where it has no more.
fn case(rt: &HostRuntime, line: &[u8], sheet: &mut [u8], table: &mut [u8]) {
    let file = up_to(line, 32);
    let n = load(rt, file, sheet);
    let asked = lent_of(rt, past_first(line, 32));
    let lent = asked.min(table.len());
    text(rt, file);
    text(rt, b": ");
    answered(rt, &sheet[..n], &mut table[..lent]);
    text(rt, b"\n");
}

// A line that the cursor refuses ends the list, and shows in the output.
pub fn cases(rt: &HostRuntime, list: &[u8], sheet: &mut [u8], table: &mut [u8])
    requires { length list.now ≤ 65536 }
{
    if let Err(r) = each_line(list, |line| case(rt, line, sheet, table)) {
        let number = refusal_number(r);
        let _ = print!(rt; "list: {number} at 0");
    }
}
