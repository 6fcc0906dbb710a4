// A list of cases, a line each.
ghost use Rattle.std.specs.Prelude.{◌≡◌, ◌≤◌, length, Err, IfErr};
ghost use Rattle.lines.specs.Line.{Ready, line_at};
ghost use Rattle.lines.specs.declared.Cursor.{Cursor};

use lines::Cursor;
use text::part::between;
use text::refusal::Refusal;

// Calls `each` with one line after the other, up to one that the cursor refuses; answers the refusal.
pub fn each_line<F: FnMut(&[u8])>(list: &[u8], mut each: F) -> Result<(), Refusal>
    requires short { length list.now ≤ 65536 }
    requires callable { F.IsAlwaysCallable each }
    ensures { IfErr result (λ r. (c : Cursor) × Ready list.now c × (line_at list.now c ≡ Err r)) }
{
    let mut c = Cursor { at: 0, number: 0 };
    while c.at < list.len() {
        let line = c.next(list)?;
        each(between(list, line.start, line.end));
        c = line.next;
    }
    Ok(())
}
