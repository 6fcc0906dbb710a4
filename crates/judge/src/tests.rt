// The tests of a line, from 5 to its fields, by what it turned out to be.
ghost use Rattle.std.specs.Prelude.{◌≡◌};
ghost use Rattle.judge.specs.LineTests.{room_for_parameter_in, room_for_sample_in, room_for_component_in, form_tests, Fitting};
ghost use Rattle.judge.specs.Sampling.{sample_in};
ghost use Rattle.text.specs.Refusals.{when, or_else};

use crate::sampling::{Sampling, sample_judged};
use crate::tally::Tally;
use lineforms::due::Form;
use lineforms::fields::{
    component_fields, header_fields, label_fields, name_fields, range_fields, record_fields,
    signed_fields, source_fields, time_fields,
};
use model::limits::{COMPONENTS, COMPONENTS_EACH, PARAMETERS, SAMPLES, SAMPLES_EACH};
use text::refusal::Refusal;

pub fn refused_if(wrong: bool, refusal: Refusal) -> Result<(), Refusal>
    ensures { result ≡ when wrong refusal }
{
    if wrong {
        return Err(refusal);
    }
    Ok(())
}

// 12: one parameter more.
#[tactic(auto, unfolding(crate::specs::LineTests::room_for_parameter_in))]
fn room_for_parameter(x: Tally) -> Result<(), Refusal>
    ensures { result ≡ room_for_parameter_in x }
{
    refused_if(PARAMETERS <= x.parameters, Refusal::TooMany)
}

// 12: one sample more, which its first component opens.
#[tactic(auto, unfolding(crate::specs::LineTests::room_for_sample_in))]
fn room_for_sample(x: Tally) -> Result<(), Refusal>
    ensures { result ≡ room_for_sample_in x }
{
    let full = SAMPLES_EACH <= x.own || SAMPLES <= x.samples || COMPONENTS <= x.components;
    refused_if(full, Refusal::TooMany)
}

// 12: one component more.
#[tactic(auto, unfolding(crate::specs::LineTests::room_for_component_in))]
fn room_for_component(x: Tally) -> Result<(), Refusal>
    ensures { result ≡ room_for_component_in x }
{
    let full = COMPONENTS_EACH <= x.parts || COMPONENTS <= x.components;
    refused_if(full, Refusal::TooMany)
}

// 5 and 10, 12, then the fields left to right.
#[tactic(auto, unfolding(crate::specs::LineTests::form_tests, text::specs::Refusals::first))]
fn form_judged(
    form: Form,
    line: &[u8],
    x: Tally,
    words: &[u64],
    bits: &[u64],
) -> Result<(), Refusal>
    ensures { result ≡ form_tests form x words.now bits.now line.now }
{
    match form {
        Form::Stray => Err(Refusal::NotDue),
        Form::Superframe => Err(Refusal::NotCarried),
        Form::HeaderLine => header_fields(line),
        Form::RecordLine => record_fields(line),
        Form::ParameterWord => room_for_parameter(x),
        Form::NameLine => name_fields(line),
        Form::OpeningComponent => {
            room_for_sample(x)?;
            component_fields(line, x.declared as u64, words, bits)
        }
        Form::ComponentLine => {
            room_for_component(x)?;
            component_fields(line, x.declared as u64, words, bits)
        }
        Form::TimeLine => time_fields(line),
        Form::SignedLine => signed_fields(line),
        Form::RangeLine => range_fields(line, x.identifier),
        Form::SourceLine => source_fields(line),
        Form::LabelLine => label_fields(line),
        Form::HeaderWord
        | Form::RecordWord
        | Form::NoneWord
        | Form::SamplesEnd
        | Form::SourceEnd
        | Form::ParameterEnd => Ok(()),
    }
}

// The same, then 14.
pub fn line_judged(
    form: Form,
    line: &[u8],
    x: Tally,
    g: Sampling,
    words: &[u64],
    bits: &[u64],
) -> Result<(), Refusal>
    requires { Fitting form x g }
    ensures { result ≡ or_else (form_tests form x words.now bits.now line.now) (sample_in form line.now g x.own) }
{
    form_judged(form, line, x, words, bits)?;
    sample_judged(form, line, g, x.own)
}
