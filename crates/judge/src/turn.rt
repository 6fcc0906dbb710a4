// One line of the walk: what it turns out to be, and what is known after it.
ghost use Rattle.std.specs.Prelude.{◌≡◌};
ghost use Rattle.judge.specs.Turns.{Starting, Known, Going, Steady, Gone, judged_in, turn_of, opened_after};
ghost use Rattle.judge.specs.LineTests.{Fitting};
ghost use Rattle.lines.specs.Line.{line_at};

use crate::names::{Places, names_judged, no_places, places_after};
use crate::rows::Rows;
use crate::sampling::{Sampling, no_sample, sampling_after};
use crate::tally::{Tally, counted, nothing};
use crate::tests::line_judged;
use lineforms::due::{Due, Form, due_after, form_of};
use lines::{Cursor, Line};
use text::part::between;
use text::refusal::Refusal;

// What is known before a line: what is due, the counts, the open sample, where the open parameter's texts stand, and the line of
// its `PARAMETER:` word (0, and no places, before there is one).
#[derive(Clone, Copy)]
pub struct State {
    pub due: Due,
    pub counts: Tally,
    pub sample: Sampling,
    pub here: Places,
    pub opened_at: u32,
}

// A line that passes, by its form.
#[derive(Clone, Copy)]
pub struct Passed {
    pub form: Form,
    pub line: Line,
}

pub fn at_start() -> State
    ensures { Starting result }
{
    State {
        due: Due::HeaderWord,
        counts: nothing(),
        sample: no_sample(),
        here: no_places(),
        opened_at: 0,
    }
}

// The tests of a line: 5 to its fields, 14, then 15.
#[tactic(auto, unfolding(crate::specs::Turns::judged_in))]
fn judged(form: Form, sheet: &[u8], line: &[u8], t: &State, rows: &Rows) -> Result<(), Refusal>
    requires { Known t.now × Fitting form t.now.counts t.now.sample }
    ensures { result ≡ judged_in form sheet.now line.now t.now rows.now }
{
    let words = &rows.words[..t.counts.pairs];
    let bits = &rows.bits[..t.counts.pairs];
    line_judged(form, line, t.counts, t.sample, words, bits)?;
    names_judged(form, sheet, line, &rows.kept[..t.counts.parameters])
}

// The next line, judged.
pub fn turn(sheet: &[u8], c: Cursor, t: &State, rows: &Rows) -> Result<Passed, Refusal>
    requires { Going sheet.now c t.now }
    ensures { result ≡ turn_of (line_at sheet.now c) sheet.now t.now rows.now }
{
    let found = c.next(sheet)?;
    let line = between(sheet, found.start, found.end);
    let form = form_of(t.due, t.counts.pairs, t.counts.declared, line);
    judged(form, sheet, line, t, rows)?;
    Ok(Passed { form, line: found })
}

// The line of the open parameter's `PARAMETER:` word after the line of this number.
fn opened_after(form: Form, number: u32, opened_at: u32) -> u32
    ensures { result ≡ opened_after form number opened_at }
{
    match form {
        Form::ParameterWord => number,
        _ => opened_at,
    }
}

// What is known after a line that passed, begins here in the sheet and has this number.
pub fn after(form: Form, line: &[u8], begin: usize, number: u32, t: &State) -> State
    requires { Steady form line.now begin t.now }
    ensures { Gone form line.now begin number t.now result }
{
    State {
        due: due_after(form),
        counts: counted(form, line, t.counts),
        sample: sampling_after(form, line, t.sample, t.counts.parts, t.counts.own),
        here: places_after(form, line, begin, t.here),
        opened_at: opened_after(form, number, t.opened_at),
    }
}
