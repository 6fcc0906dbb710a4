// The writing walk over an accepted sheet.
ghost use Rattle.std.specs.Prelude.{◌≡◌, length};
ghost use Rattle.judge.specs.Walk.{book_of};
ghost use Rattle.laying.specs.Parts.{laid};
ghost use Rattle.maker.specs.Emit.{places_of, Walkable};

use crate::emit::emit;
use judge::tally::{counted, nothing};
use lineforms::due::{Due, due_after, form_of};
use lines::Cursor;
use stored::items::Starts;
use text::part::between;

// Lays down all but the header; each record pair is written n times. (A cursor's loop: each line
// begins where the one before it ended.)
pub fn walk(sheet: &[u8], a: Starts, n: usize, out: &mut [u8])
    requires { Walkable sheet.now a n (length out.old) }
    ensures { out.new ≡ laid out.old (places_of a) n (book_of sheet.now) }
{
    let mut c = Cursor { at: 0, number: 0 };
    let mut due = Due::HeaderWord;
    let mut x = nothing();
    while let Ok(found) = c.next(sheet) {
        let line = between(sheet, found.start, found.end);
        let f = form_of(due, x.pairs, x.declared, line);
        emit(f, line, x, a, n, out);
        x = counted(f, line, x);
        due = due_after(f);
        c = found.next;
    }
}
