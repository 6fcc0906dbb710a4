// Case after case.
ghost use Rattle.std.specs.Prelude.{◌≤◌, length};

use crate::answer::{answer_text, refused};
use crate::kind::Kind;
use intake::list::each_line;
use intake::say::text;
use spell::integers::integer;
use text::part::{past_first, up_to};

// The number that a line begins with.
fn kind_of(line: &[u8]) -> Option<Kind> {
    let number = integer(up_to(line, 32), 6, 0, 24).ok()?;
    Kind::try_from(number).ok()
}

// A number that is no kind's shows in the output.
fn case(rt: &HostRuntime, line: &[u8]) {
    let rest = past_first(line, 32);
    text(rt, up_to(rest, 124));
    text(rt, b": ");
    match kind_of(line) {
        Some(kind) => answer_text(rt, kind, past_first(rest, 124)),
        None => text(rt, b"no kind"),
    }
    text(rt, b"\n");
}

// A case for each line of list; a line that the cursor refuses ends them, and shows in the output.
pub fn cases(rt: &HostRuntime, list: &[u8])
    requires { length list.now ≤ 65536 }
{
    if let Err(r) = each_line(list, |line| case(rt, line)) {
        refused(rt, r);
    }
}
