// Runs the spelling examples of 01 and of its open points (docs/DECISIONS.md), one line each: SHOWN: ANSWER.
// They stand in data/cases, since each literal would cost the check a proof: a line KIND SHOWN|FIELD, the kind by its number.
// What is shown for a field that is long or has blanks round it is a label in angle brackets.
#![tactic(auto)]

mod answer;
mod cases;
mod kind;
mod walk;

use cases::cases;
use intake::load;

fn main(rt: HostRuntime) {
    let mut list = [0u8; 65536];
    let n = load(&rt, b"cases", &mut list);
    cases(&rt, &list[..n]);
}
