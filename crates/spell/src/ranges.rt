// Bits of a word: `a` or `a-b`.
ghost use Rattle.std.specs.Prelude.{◌≡◌, true};
ghost use Rattle.spell.specs.BitRanges.{is_bits, low_bit, high_bit, bits_of, component_bits_of, source_bits_judged};

use crate::answers::Bits;
use crate::digits::{marked, number};
use text::part::{holds, past_first, up_to};
use text::refusal::Refusal;

#[tactic(auto, using(crate::proofs::MarkLaws::mark_left, crate::proofs::MarkLaws::six_asked), unfolding(crate::specs::BitRanges::low_bit))]
fn low_bit(f: &[u8]) -> u64
    requires { is_bits f.now ≡ true }
    ensures { result ≡ low_bit f.now }
{
    number(up_to(f, b'-'))
}

#[tactic(auto, using(crate::proofs::MarkLaws::mark_right, crate::proofs::MarkLaws::six_asked), unfolding(crate::specs::BitRanges::high_bit))]
fn high_bit(f: &[u8]) -> u64
    requires { is_bits f.now ≡ true }
    ensures { result ≡ high_bit f.now }
{
    if holds(f, b'-') {
        number(past_first(f, b'-'))
    } else {
        low_bit(f)
    }
}

// 8, 6, 11 for 0 or a above b.
#[tactic(auto, unfolding(crate::specs::BitRanges::bits_of, crate::specs::BitRanges::bits_judged, text::specs::Refusals::first))]
fn bit_range(f: &[u8]) -> Result<Bits, Refusal>
    ensures { result ≡ bits_of f.now }
{
    if f.is_empty() {
        return Err(Refusal::FieldEmpty);
    }
    if !marked(f, b'-', 6, 6) {
        return Err(Refusal::Misspelt);
    }
    let low = low_bit(f);
    let high = high_bit(f);
    if low == 0 || high < low {
        return Err(Refusal::OutsideLimit);
    }
    Ok(Bits { low, high })
}

// 8, 6, 11 for 0 or a above b, 13 beyond the word's bits.
#[tactic(auto, using(crate::proofs::AnswerLaws::range_passes, crate::proofs::AnswerLaws::range_same), unfolding(crate::specs::BitRanges::component_bits_of, crate::specs::BitRanges::component_bits_judged, text::specs::Refusals::first))]
pub fn component_bits(f: &[u8], count: u64) -> Result<Bits, Refusal>
    ensures { result ≡ component_bits_of count f.now }
{
    let bits = bit_range(f)?;
    if count < bits.high {
        return Err(Refusal::BeyondDeclared);
    }
    Ok(bits)
}

// 6, 11: an empty field passes; 1 to 32.
#[tactic(auto, using(crate::proofs::AnswerLaws::range_passes, crate::proofs::AnswerLaws::range_same), unfolding(crate::specs::BitRanges::source_bits_judged, text::specs::Refusals::first))]
pub fn source_bits(f: &[u8]) -> Result<(), Refusal>
    ensures { result ≡ source_bits_judged f.now }
{
    if f.is_empty() {
        return Ok(());
    }
    let bits = bit_range(f)?;
    if 32 < bits.high {
        return Err(Refusal::OutsideLimit);
    }
    Ok(())
}
