// Booleans: three spellings of each.
ghost use Rattle.std.specs.Prelude.{◌≡◌, ◌||◌};
ghost use Rattle.lay.specs.Bytes.{same};
ghost use Rattle.spell.specs.Truths.{says_true, says_false, truth_of, truth_or_empty_judged};

use lay::same_text;
use text::refusal::Refusal;

fn one_of(f: &[u8], x: &[u8], y: &[u8], z: &[u8]) -> bool
    ensures { result ≡ (same f.now x.now || (same f.now y.now || same f.now z.now)) }
{
    same_text(f, x) || same_text(f, y) || same_text(f, z)
}

#[tactic(auto, unfolding(crate::specs::Truths::says_true))]
pub fn says_true(f: &[u8]) -> bool
    ensures { result ≡ says_true f.now }
{
    one_of(f, b"True", b"true", b"TRUE")
}

#[tactic(auto, unfolding(crate::specs::Truths::says_false))]
fn says_false(f: &[u8]) -> bool
    ensures { result ≡ says_false f.now }
{
    one_of(f, b"False", b"false", b"FALSE")
}

// 8, 6.
#[tactic(auto, unfolding(crate::specs::Truths::truth_of, crate::specs::Truths::truth_judged, text::specs::Refusals::first))]
pub fn truth(f: &[u8]) -> Result<bool, Refusal>
    ensures { result ≡ truth_of f.now }
{
    if f.is_empty() {
        return Err(Refusal::FieldEmpty);
    }
    if says_true(f) {
        return Ok(true);
    }
    if says_false(f) {
        return Ok(false);
    }
    Err(Refusal::Misspelt)
}

// Only 6: an empty field passes.
#[tactic(auto, unfolding(crate::specs::Truths::truth_or_empty_judged, text::specs::Refusals::first))]
pub fn truth_or_empty(f: &[u8]) -> Result<(), Refusal>
    ensures { result ≡ truth_or_empty_judged f.now }
{
    if f.is_empty() || says_true(f) || says_false(f) {
        return Ok(());
    }
    Err(Refusal::Misspelt)
}
