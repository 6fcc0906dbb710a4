// Walks over the fields of a raw line, and by the line cursor.
ghost use Rattle.std.specs.Prelude.{◌≤◌, length};

use crate::answer::refused;
use intake::load;
use intake::say::text;
use lines::{Cursor, Line};
use text::field::{field_at, field_bytes, field_count};
use text::part::between;
use text::refusal::Refusal;

fn field_text(rt: &HostRuntime, line: &[u8], k: usize) {
    let f = field_at(line, k);
    let start = f.start;
    let _ = print!(rt; "; at {start} [");
    text(rt, field_bytes(line, f));
    text(rt, b"]");
}

// How many fields a raw line has, and each with its place, counted from 0.
pub fn fields_text(rt: &HostRuntime, line: &[u8]) {
    let n = field_count(line);
    let _ = print!(rt; "{n}");
    for k in 0..n {
        field_text(rt, line, k);
    }
}

fn line_text(rt: &HostRuntime, bytes: &[u8], line: Line) {
    let Line { start, end, .. } = line;
    let fields = field_count(bytes);
    let _ = print!(rt; "{start} to {end} of {fields}; ");
}

fn stopped_text(rt: &HostRuntime, r: Refusal, line: u32) {
    refused(rt, r);
    let _ = print!(rt; " at {line}");
}

// The lines that the cursor finds, each with its bounds and its count of fields, and what it stops at. The bounds and the line
// that is refused are told, which a walk over a list (`each_line`) does not tell.
fn found_text(rt: &HostRuntime, sheet: &[u8])
    requires { length sheet.now ≤ 65536 }
{
    let mut c = Cursor { at: 0, number: 0 };
    loop {
        match c.next(sheet) {
            Ok(line) => {
                line_text(rt, between(sheet, line.start, line.end), line);
                c = line.next;
            }
            Err(r) => return stopped_text(rt, r, c.number + 1),
        }
    }
}

// Bytes that no line can hold, as an end byte, are a file's.
pub fn lines_of_file(rt: &HostRuntime, name: &[u8]) {
    let mut sheet = [0u8; 4096];
    let n = load(rt, name, &mut sheet);
    found_text(rt, &sheet[..n]);
}
