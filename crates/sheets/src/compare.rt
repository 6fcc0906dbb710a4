// A comparison names the lowest subframe that differs, in whatever order the sheet lists the identifiers.
use crate::cases::rejected_text;
use frame::compare::{compare, compare_number};
use intake::load;
use intake::say::text;
use maker::make::make;
use table::reason::Reason;
use text::part::front;

// A refusal's number, and the subframe that it names.
fn compared_text(rt: &HostRuntime, compared: Result<Option<usize>, Reason>) {
    let number = compare_number(compared);
    let _ = match compared {
        Ok(None) => print!(rt; "passes"),
        Ok(Some(subframe)) => print!(rt; "{number} at {subframe}"),
        Err(_) => print!(rt; "{number} at 0"),
    };
}

// A frame of two subframes of four words, by the first word of each.
fn compare_line(rt: &HostRuntime, table: &[u8], file: &[u8], first: u16, second: u16) {
    let words: [u16; 8] = [first, 0, 0, 0, second, 0, 0, 0];
    text(rt, file);
    let _ = print!(rt; ", words {first} and {second}: ");
    compared_text(rt, compare(table, &words));
    text(rt, b"\n");
}

fn compare_lines(rt: &HostRuntime, table: &[u8], file: &[u8]) {
    for (first, second) in [(0, 0), (1, 0), (0, 2), (1, 2)] {
        compare_line(rt, table, file, first, second);
    }
}

// The sheet has the identifiers of subframes 2 and 1, in this order: 2 in its first word, and 1.
pub fn compared(rt: &HostRuntime, sheet: &mut [u8], table: &mut [u8]) {
    let file = b"identifiers-second-subframe-first.frcs";
    let n = load(rt, file, sheet);
    match make(&sheet[..n], table) {
        Ok(k) => {
            if k <= table.len() {
                compare_lines(rt, front(table, k), file);
            }
        }
        Err(rejected) => {
            rejected_text(rt, rejected);
            text(rt, b"\n");
        }
    }
}
