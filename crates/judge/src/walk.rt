// The judge: the lines of a sheet from the top, then 16.
ghost use Rattle.std.specs.Prelude.{◌≡◌, ◌≤◌, length};
ghost use Rattle.model.specs.Forms.{sheet_limits};
ghost use Rattle.judge.specs.Walk.{may_end, identified_in, ended_in, verdict_of, book_of, refused};
ghost use Rattle.judge.specs.Counts.{tally_of};
ghost use Rattle.gather.specs.Ruling.{judge_of};

use crate::identifiers::{all_taken, first_bad};
use crate::rows::{Kept, Rows};
use crate::tally::Tally;
use crate::turn::{State, after, at_start, turn};
use lineforms::due::Due;
use lines::Cursor;
use text::part::between;
use text::refusal::Refusal;

// What a sheet is refused for, and at which line: 0 for the whole sheet, as 01 answers.
#[derive(Clone, Copy)]
pub struct Rejected {
    pub refusal: Refusal,
    pub line: u32,
}

fn refused(refusal: Refusal, line: u32) -> Result<Tally, Rejected>
    ensures { result ≡ refused refusal line }
{
    Err(Rejected { refusal, line })
}

// Whether no line is due.
fn may_end(due: Due) -> bool
    ensures { result ≡ may_end due }
{
    matches!(due, Due::NextParameter | Due::Nothing)
}

// 16, after the last line, by what is kept of each parameter.
#[tactic(auto, unfolding(crate::specs::Walk::identified_in, crate::specs::Sixteen::first_bad_in))]
fn identified(x: Tally, kept: &[Kept]) -> Result<Tally, Rejected>
    ensures { result ≡ identified_in x kept.now }
{
    if x.parameters == 0 {
        return Ok(x);
    }
    if let Some(bad) = first_bad(kept) {
        return refused(Refusal::BadIdentifiers, kept[bad].opened_at);
    }
    if all_taken(kept, x.declared as u64) {
        return Ok(x);
    }
    refused(Refusal::BadIdentifiers, 0)
}

// After the last line: 4 at the line that is missing, else 16.
#[tactic(auto, unfolding(crate::specs::Walk::ended_in))]
fn ended(t: &State, missing: u32, rows: &Rows) -> Result<Tally, Rejected>
    requires { t.now.counts.parameters ≤ sheet_limits.parameters }
    ensures { result ≡ ended_in t.now missing rows.now }
{
    if !may_end(t.due) {
        return refused(Refusal::Unended, missing);
    }
    identified(t.counts, &rows.kept[..t.counts.parameters])
}

// The lines from the top: a cursor's loop, since each line begins where the one before it ended.
fn walked(sheet: &[u8], rows: &mut Rows) -> Result<Tally, Rejected>
    requires { length sheet.now ≤ 65536 }
    ensures { result ≡ verdict_of (judge_of sheet.now) (tally_of (book_of sheet.now)) }
{
    let mut c = Cursor { at: 0, number: 0 };
    let mut t = at_start();
    while c.at < sheet.len() {
        let number = c.number + 1;
        let passed = match turn(sheet, c, &t, rows) {
            Ok(passed) => passed,
            Err(r) => return refused(r, number),
        };
        let found = passed.line;
        let line = between(sheet, found.start, found.end);
        rows.keep(passed.form, line, &t);
        t = after(passed.form, line, found.start, number, &t);
        c = found.next;
    }
    ended(&t, c.number + 1, rows)
}

// Whatever a sheet is, the judge's answer.
// Texts of earlier parameters are kept as places in the sheet, so that none is looked for again.
pub fn judge(sheet: &[u8]) -> Result<Tally, Rejected>
    ensures { result ≡ verdict_of (judge_of sheet.now) (tally_of (book_of sheet.now)) }
{
    if 65536 < sheet.len() {
        return refused(Refusal::SheetTooLong, 0);
    }
    let mut rows = Rows::none();
    walked(sheet, &mut rows)
}
