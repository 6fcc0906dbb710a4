// Integers within limits, numbers that count declared things, and octal labels.
ghost use Rattle.std.specs.Prelude.{◌≡◌, ◌≤◌};
ghost use Rattle.spell.specs.Integers.{integer_of, declared_of, margin_of, label_of};

use crate::digits::{digits_up_to, number, value};
use text::refusal::Refusal;

// 8, 6, 11: 1 to n digits, from least to most.
#[tactic(auto, using(crate::proofs::DigitLaws::up_few, crate::proofs::DigitLaws::up_digits), unfolding(crate::specs::Integers::integer_of, crate::specs::Integers::integer_judged, text::specs::Refusals::first))]
pub fn integer(f: &[u8], n: usize, least: u64, most: u64) -> Result<u64, Refusal>
    requires { n ≤ 10 }
    ensures { result ≡ integer_of n least most f.now }
{
    if f.is_empty() {
        return Err(Refusal::FieldEmpty);
    }
    if !digits_up_to(f, n, 10) {
        return Err(Refusal::Misspelt);
    }
    let v = number(f);
    if v < least || most < v {
        return Err(Refusal::OutsideLimit);
    }
    Ok(v)
}

// 8, 6, 11 for 0, 13 beyond the number declared.
#[tactic(auto, using(crate::proofs::AnswerLaws::integer_passes, crate::proofs::AnswerLaws::integer_same), unfolding(crate::specs::Integers::declared_of, crate::specs::Integers::declared_judged, text::specs::Refusals::first))]
pub fn declared(f: &[u8], count: u64) -> Result<u64, Refusal>
    ensures { result ≡ declared_of count f.now }
{
    let v = integer(f, 6, 1, 999999)?;
    if count < v {
        return Err(Refusal::BeyondDeclared);
    }
    Ok(v)
}

// 6, 11: an empty field says what stands for unknown.
#[tactic(auto, unfolding(crate::specs::Integers::margin_of))]
pub fn margin(f: &[u8], most: u64, blank: u64) -> Result<u64, Refusal>
    ensures { result ≡ margin_of most blank f.now }
{
    if f.is_empty() {
        return Ok(blank);
    }
    integer(f, 6, 0, most)
}

// 8, 6, 11 above 377 octal.
#[tactic(auto, using(crate::proofs::DigitLaws::up_few, crate::proofs::DigitLaws::up_digits), unfolding(crate::specs::Integers::label_of, crate::specs::Integers::label_judged, text::specs::Refusals::first, crate::specs::Digits::number))]
pub fn label(f: &[u8]) -> Result<u64, Refusal>
    ensures { result ≡ label_of f.now }
{
    if f.is_empty() {
        return Err(Refusal::FieldEmpty);
    }
    if !digits_up_to(f, 3, 8) {
        return Err(Refusal::Misspelt);
    }
    let v = value(f, f.len(), 8);
    if 255 < v {
        return Err(Refusal::OutsideLimit);
    }
    Ok(v)
}
