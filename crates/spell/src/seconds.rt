// Seconds: a decimal, `N/D` or `W N/D`, in lowest terms.
ghost use Rattle.std.specs.Prelude.{◌≡◌, true, ◌<◌};
ghost use Rattle.spell.specs.Durations.{is_fraction, is_seconds, fraction_of, bad_fraction, reduced_of, seconds_of, Small};

use crate::decimals::millionths;
use crate::digits::{digits_up_to, marked, number};
use ratio::{Ratio, lowest_terms};
use text::part::{holds, past_first, up_to};
use text::refusal::Refusal;

// The numbers of `N/D` or `W N/D`.
#[derive(Clone, Copy)]
pub struct Fraction {
    pub whole: Option<u64>,
    pub above: u64,
    pub below: u64,
}

#[tactic(auto, unfolding(crate::specs::Durations::is_fraction))]
fn is_fraction(f: &[u8]) -> bool
    ensures { result ≡ is_fraction f.now }
{
    marked(up_to(f, b'/'), b' ', 6, 6) && digits_up_to(past_first(f, b'/'), 6, 10)
}

#[tactic(auto, unfolding(crate::specs::Durations::is_seconds))]
fn is_seconds(f: &[u8]) -> bool
    ensures { result ≡ is_seconds f.now }
{
    if holds(f, b'/') {
        is_fraction(f)
    } else {
        marked(f, b'.', 6, 6)
    }
}

fn fraction_in(f: &[u8]) -> Fraction
    requires { is_fraction f.now ≡ true }
    ensures { (result ≡ fraction_of f.now) × Small result }
{
    let left = up_to(f, b'/');
    let below = number(past_first(f, b'/'));
    if holds(left, b' ') {
        return Fraction {
            whole: Some(number(up_to(left, b' '))),
            above: number(past_first(left, b' ')),
            below,
        };
    }
    Fraction {
        whole: None,
        above: number(left),
        below,
    }
}

// D is 0; or with W, N is 0 or not below D.
#[tactic(auto, unfolding(crate::specs::Durations::bad_fraction))]
fn bad_fraction(x: Fraction) -> bool
    ensures { result ≡ bad_fraction x }
{
    x.below == 0 || x.whole.is_some() && (x.above == 0 || x.below <= x.above)
}

// 11 for 0; else in lowest terms.
#[tactic(auto, unfolding(crate::specs::Durations::reduced_of, text::specs::Refusals::first))]
fn reduced(top: u64, bottom: u64) -> Result<Ratio, Refusal>
    requires { 0 < bottom }
    ensures { result ≡ reduced_of top bottom }
{
    if top == 0 {
        return Err(Refusal::OutsideLimit);
    }
    Ok(lowest_terms(top, bottom))
}

// 8, 6, 11.
#[tactic(auto, using(crate::proofs::FractionLaws::seconds_decimal, crate::proofs::FractionLaws::seconds_fraction, crate::proofs::FractionLaws::not_bad, crate::proofs::FractionLaws::whole_small), unfolding(crate::specs::Durations::seconds_of, crate::specs::Durations::seconds_judged, crate::specs::Durations::top_of, crate::specs::Durations::bottom_of, crate::specs::Durations::reduced_of, text::specs::Refusals::first))]
pub fn seconds(f: &[u8]) -> Result<Ratio, Refusal>
    ensures { result ≡ seconds_of f.now }
{
    if f.is_empty() {
        return Err(Refusal::FieldEmpty);
    }
    if !is_seconds(f) {
        return Err(Refusal::Misspelt);
    }
    if !holds(f, b'/') {
        return reduced(millionths(f), 1000000);
    }
    let x = fraction_in(f);
    if bad_fraction(x) {
        return Err(Refusal::OutsideLimit);
    }
    reduced(x.whole.unwrap_or(0) * x.below + x.above, x.below)
}
