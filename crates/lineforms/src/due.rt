// What is due, what a line turns out to be, and what is due after it.
ghost use Rattle.std.specs.Prelude.{◌≡◌};
ghost use Rattle.lineforms.specs.Forms.{word_form, count_form, either_form, opening_form, after_sample_form, form_of, due_after};

use Form::{HeaderWord, NoneWord, ParameterWord, RecordWord, Stray};
use text::field::field_count;
use text::keyword::{Keyword, keyword_of};

#[derive(Clone, Copy, Debug, PartialEq, Eq)]
pub enum Due {
    HeaderWord,
    HeaderLine,
    RecordWord,
    RecordLine,
    Opening,
    NameLine,
    FirstComponent,
    NextComponent,
    AfterSample,
    SignedLine,
    RangeLine,
    SourceLine,
    AfterSource,
    SourceBlank,
    AfterSourceBlank,
    NextParameter,
    Nothing,
}

// A line that is none of them is a form too: the definition `form_of` answers one for every line, and the judge refuses it.
#[derive(Clone, Copy, Debug, PartialEq, Eq)]
pub enum Form {
    Stray,
    Superframe,
    HeaderWord,
    HeaderLine,
    RecordWord,
    RecordLine,
    NoneWord,
    ParameterWord,
    NameLine,
    OpeningComponent,
    ComponentLine,
    TimeLine,
    SamplesEnd,
    SignedLine,
    RangeLine,
    SourceLine,
    LabelLine,
    SourceEnd,
    ParameterEnd,
}

// By the keyword: one form for each, for any other line none.
#[tactic(auto, unfolding(crate::specs::Forms::word_form))]
fn word_form(line: &[u8], heading: Form, recording: Form, nothing: Form, opened: Form) -> Form
    ensures { result ≡ word_form line.now heading recording nothing opened }
{
    match keyword_of(line) {
        Keyword::Header => heading,
        Keyword::Record => recording,
        Keyword::Nothing => nothing,
        Keyword::Parameter => opened,
        Keyword::Other => Form::Stray,
    }
}

// A line of n fields.
#[tactic(auto, unfolding(crate::specs::Forms::count_form))]
fn count_form(line: &[u8], n: usize, form: Form) -> Form
    ensures { result ≡ count_form line.now n form }
{
    if field_count(line) == n {
        form
    } else {
        Form::Stray
    }
}

// A line of n fields or one of m.
#[tactic(auto, unfolding(crate::specs::Forms::either_form))]
fn either_form(line: &[u8], n: usize, form: Form, m: usize, other: Form) -> Form
    ensures { result ≡ either_form line.now n form m other }
{
    if field_count(line) == n {
        form
    } else {
        count_form(line, m, other)
    }
}

// After so many record pairs, of so many subframes.
#[tactic(auto, unfolding(crate::specs::Forms::opening_form))]
fn opening_form(line: &[u8], pairs: usize, subframes: usize) -> Form
    ensures { result ≡ opening_form line.now pairs subframes }
{
    if pairs == subframes {
        word_form(line, Stray, Stray, NoneWord, ParameterWord)
    } else if pairs == 1 {
        word_form(line, Stray, RecordWord, NoneWord, ParameterWord)
    } else {
        word_form(line, Stray, RecordWord, Stray, Stray)
    }
}

// A component line opens one more sample, a blank line ends them; two fields are a superframe line.
#[tactic(auto, unfolding(crate::specs::Forms::after_sample_form))]
fn after_sample_form(line: &[u8]) -> Form
    ensures { result ≡ after_sample_form line.now }
{
    if field_count(line) == 2 {
        return Form::Superframe;
    }
    either_form(line, 4, Form::OpeningComponent, 0, Form::SamplesEnd)
}

#[tactic(auto, unfolding(crate::specs::Forms::form_of))]
pub fn form_of(due: Due, pairs: usize, subframes: usize, line: &[u8]) -> Form
    ensures { result ≡ form_of due pairs subframes line.now }
{
    match due {
        Due::HeaderWord => word_form(line, HeaderWord, Stray, Stray, Stray),
        Due::HeaderLine => count_form(line, 14, Form::HeaderLine),
        Due::RecordWord => word_form(line, Stray, RecordWord, Stray, Stray),
        Due::RecordLine => count_form(line, 5, Form::RecordLine),
        Due::Opening => opening_form(line, pairs, subframes),
        Due::NameLine => count_form(line, 7, Form::NameLine),
        Due::FirstComponent => count_form(line, 4, Form::OpeningComponent),
        Due::NextComponent => either_form(line, 4, Form::ComponentLine, 1, Form::TimeLine),
        Due::AfterSample => after_sample_form(line),
        Due::SignedLine => count_form(line, 5, Form::SignedLine),
        Due::RangeLine => count_form(line, 4, Form::RangeLine),
        Due::SourceLine => count_form(line, 3, Form::SourceLine),
        Due::AfterSource => either_form(line, 4, Form::LabelLine, 0, Form::SourceEnd),
        Due::SourceBlank => count_form(line, 0, Form::SourceEnd),
        Due::AfterSourceBlank => either_form(line, 3, Form::SourceLine, 0, Form::ParameterEnd),
        Due::NextParameter => word_form(line, Stray, Stray, Stray, ParameterWord),
        Due::Nothing => Form::Stray,
    }
}

pub fn due_after(form: Form) -> Due
    ensures { result ≡ due_after form }
{
    match form {
        Form::Stray | Form::Superframe | Form::NoneWord => Due::Nothing,
        Form::HeaderWord => Due::HeaderLine,
        Form::HeaderLine => Due::RecordWord,
        Form::RecordWord => Due::RecordLine,
        Form::RecordLine => Due::Opening,
        Form::ParameterWord => Due::NameLine,
        Form::NameLine => Due::FirstComponent,
        Form::OpeningComponent | Form::ComponentLine => Due::NextComponent,
        Form::TimeLine => Due::AfterSample,
        Form::SamplesEnd => Due::SignedLine,
        Form::SignedLine => Due::RangeLine,
        Form::RangeLine => Due::SourceLine,
        Form::SourceLine => Due::AfterSource,
        Form::LabelLine => Due::SourceBlank,
        Form::SourceEnd => Due::AfterSourceBlank,
        Form::ParameterEnd => Due::NextParameter,
    }
}
