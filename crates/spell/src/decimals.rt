// Decimals, kept in millionths.
ghost use Rattle.std.specs.Prelude.{◌≡◌, true, ◌<◌, ◌≤◌};
ghost use Rattle.spell.specs.Decimals.{is_decimal, millionths as millionthsOf, decimal_of, delay_judged};

use crate::digits::{marked, number, value};
use text::part::{past_first, up_to};
use text::refusal::Refusal;

// A decimal's millionths.
#[tactic(auto, using(crate::proofs::MarkLaws::mark_left, crate::proofs::MarkLaws::mark_past, crate::proofs::MarkLaws::six_asked, crate::proofs::MarkLaws::six_small_of, crate::proofs::MarkLaws::parts_small), unfolding(crate::specs::Decimals::millionths))]
pub fn millionths(f: &[u8]) -> u64
    requires { is_decimal 6 f.now ≡ true }
    ensures { (result ≡ millionthsOf f.now) × (result < 1000000000000) }
{
    number(up_to(f, b'.')) * 1000000 + value(past_first(f, b'.'), 6, 10)
}

// 8, 6: at most n digits before the point.
#[tactic(auto, using(crate::proofs::MarkLaws::mark_more), unfolding(crate::specs::Decimals::decimal_of, crate::specs::Decimals::decimal_judged, text::specs::Refusals::first))]
pub fn decimal(f: &[u8], n: usize) -> Result<u64, Refusal>
    requires { n ≤ 6 }
    ensures { result ≡ decimal_of n f.now }
{
    if f.is_empty() {
        return Err(Refusal::FieldEmpty);
    }
    if !marked(f, b'.', n, 6) {
        return Err(Refusal::Misspelt);
    }
    Ok(millionths(f))
}

// Only 6: an empty field passes.
#[tactic(auto, unfolding(crate::specs::Decimals::delay_judged, text::specs::Refusals::first))]
pub fn delay(f: &[u8]) -> Result<(), Refusal>
    ensures { result ≡ delay_judged f.now }
{
    if f.is_empty() || marked(f, b'.', 6, 6) {
        return Ok(());
    }
    Err(Refusal::Misspelt)
}
