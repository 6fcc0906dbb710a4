// The tests of a line's fields, left to right: one function for each kind of line.
ghost use Rattle.std.specs.Prelude.{◌≡◌};
ghost use Rattle.text.specs.Refusals.{first};
ghost use Rattle.text.specs.Fields.{field_of};
ghost use Rattle.lineforms.specs.LineFields.{header_fields, record_fields, name_fields, pair_index, declared_for, component_fields, time_fields, signed_fields, range_judged, range_fields, source_fields, label_fields};

use crate::said::subframe_in;
use model::limits::{BITS, BLANK_MARGIN, MARGIN, SUBFRAMES, TEXT, VALUE, WORDS};
use spell::decimals::{decimal, delay};
use spell::integers::{declared, integer, label, margin};
use spell::ranges::{component_bits, source_bits};
use spell::seconds::seconds;
use spell::texts::{must_be_empty, text_field, version};
use spell::truths::{truth, truth_or_empty};
use text::field::field_of;
use text::refusal::Refusal;

#[tactic(auto, using(spell::proofs::AnswerLaws::truth_same, spell::proofs::AnswerLaws::integer_same), unfolding(text::specs::Refusals::first))]
pub fn header_fields(line: &[u8]) -> Result<(), Refusal>
    ensures { result ≡ first (header_fields line.now) }
{
    version(field_of(line, 0))?;
    text_field(field_of(line, 1), 200, false)?;
    text_field(field_of(line, 2), 200, true)?;
    text_field(field_of(line, 3), 200, false)?;
    text_field(field_of(line, 4), 200, false)?;
    text_field(field_of(line, 5), 200, true)?;
    text_field(field_of(line, 6), 200, false)?;
    text_field(field_of(line, 7), 200, false)?;
    truth(field_of(line, 8))?;
    must_be_empty(field_of(line, 9))?;
    must_be_empty(field_of(line, 10))?;
    integer(field_of(line, 11), 6, 1, SUBFRAMES as u64)?;
    text_field(field_of(line, 12), 200, false)?;
    text_field(field_of(line, 13), 200, false)
}

#[tactic(auto, using(spell::proofs::AnswerLaws::integer_same, spell::proofs::AnswerLaws::seconds_same), unfolding(text::specs::Refusals::first))]
pub fn record_fields(line: &[u8]) -> Result<(), Refusal>
    ensures { result ≡ first (record_fields line.now) }
{
    integer(field_of(line, 0), 6, 1, BITS as u64)?;
    integer(field_of(line, 1), 6, 1, WORDS as u64)?;
    margin(field_of(line, 2), MARGIN as u64, BLANK_MARGIN as u64)?;
    margin(field_of(line, 3), MARGIN as u64, BLANK_MARGIN as u64)?;
    seconds(field_of(line, 4))?;
    Ok(())
}

#[tactic(auto, using(spell::proofs::AnswerLaws::truth_same), unfolding(text::specs::Refusals::first))]
pub fn name_fields(line: &[u8]) -> Result<(), Refusal>
    ensures { result ≡ first (name_fields line.now) }
{
    text_field(field_of(line, 0), TEXT, true)?;
    text_field(field_of(line, 1), TEXT, false)?;
    text_field(field_of(line, 2), TEXT, false)?;
    truth(field_of(line, 3))?;
    must_be_empty(field_of(line, 4))?;
    text_field(field_of(line, 5), 200, false)?;
    text_field(field_of(line, 6), 200, false)
}

// Which of n record pairs is that of subframe s: one stands for all.
#[tactic(auto, unfolding(crate::specs::LineFields::pair_index))]
fn pair_index(n: usize, s: u64) -> usize
    ensures { result ≡ pair_index n s }
{
    if n == 1 {
        0
    } else {
        s.saturating_sub(1) as usize
    }
}

// Of numbers that the record pairs declare, that of subframe s.
#[tactic(auto, unfolding(crate::specs::LineFields::declared_for))]
fn declared_for(ns: &[u64], s: u64) -> u64
    ensures { result ≡ declared_for ns.now s }
{
    ns.get(pair_index(ns.len(), s)).copied().unwrap_or(0)
}

#[tactic(auto, using(spell::proofs::AnswerLaws::declared_same, spell::proofs::AnswerLaws::integer_same, spell::proofs::AnswerLaws::component_same), unfolding(text::specs::Refusals::first))]
pub fn component_fields(
    line: &[u8],
    subframes: u64,
    words: &[u64],
    bits: &[u64],
) -> Result<(), Refusal>
    ensures { result ≡ first (component_fields subframes words.now bits.now line.now) }
{
    let s = subframe_in(line);
    declared(field_of(line, 0), subframes)?;
    declared(field_of(line, 1), declared_for(words, s))?;
    integer(field_of(line, 2), 6, 0, 999999)?;
    component_bits(field_of(line, 3), declared_for(bits, s))?;
    Ok(())
}

#[tactic(auto, using(spell::proofs::AnswerLaws::decimal_same), unfolding(text::specs::Refusals::first))]
pub fn time_fields(line: &[u8]) -> Result<(), Refusal>
    ensures { result ≡ first (time_fields line.now) }
{
    decimal(field_of(line, 0), 3)?;
    Ok(())
}

#[tactic(auto, using(spell::proofs::AnswerLaws::truth_same), unfolding(text::specs::Refusals::first))]
pub fn signed_fields(line: &[u8]) -> Result<(), Refusal>
    ensures { result ≡ first (signed_fields line.now) }
{
    truth(field_of(line, 0))?;
    must_be_empty(field_of(line, 1))?;
    must_be_empty(field_of(line, 2))?;
    text_field(field_of(line, 3), 200, false)?;
    must_be_empty(field_of(line, 4))
}

// One integer for a record identifier, else text.
#[tactic(auto, using(spell::proofs::AnswerLaws::integer_same), unfolding(crate::specs::LineFields::range_judged, text::specs::Refusals::first))]
fn range_judged(line: &[u8], identifier: bool) -> Result<(), Refusal>
    ensures { result ≡ range_judged identifier (field_of 0 line.now) }
{
    if !identifier {
        return text_field(field_of(line, 0), 200, false);
    }
    integer(field_of(line, 0), 10, 0, VALUE as u64)?;
    Ok(())
}

#[tactic(auto, unfolding(text::specs::Refusals::first))]
pub fn range_fields(line: &[u8], identifier: bool) -> Result<(), Refusal>
    ensures { result ≡ first (range_fields identifier line.now) }
{
    range_judged(line, identifier)?;
    must_be_empty(field_of(line, 1))?;
    text_field(field_of(line, 2), 200, false)?;
    delay(field_of(line, 3))
}

#[tactic(auto, unfolding(text::specs::Refusals::first))]
pub fn source_fields(line: &[u8]) -> Result<(), Refusal>
    ensures { result ≡ first (source_fields line.now) }
{
    text_field(field_of(line, 0), 200, false)?;
    text_field(field_of(line, 1), 200, false)?;
    text_field(field_of(line, 2), 200, false)
}

#[tactic(auto, using(spell::proofs::AnswerLaws::label_same), unfolding(text::specs::Refusals::first))]
pub fn label_fields(line: &[u8]) -> Result<(), Refusal>
    ensures { result ≡ first (label_fields line.now) }
{
    truth_or_empty(field_of(line, 0))?;
    label(field_of(line, 1))?;
    source_bits(field_of(line, 2))?;
    text_field(field_of(line, 3), 200, false)
}
