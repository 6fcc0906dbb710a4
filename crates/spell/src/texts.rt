// Text, the version, and a field that must be empty.
ghost use Rattle.std.specs.Prelude.{◌≡◌};
ghost use Rattle.spell.specs.Texts.{text_judged, version_judged, empty_judged};

use lay::same_text;
use text::part::holds;
use text::refusal::Refusal;

// 7, 8, 6. The field is trimmed.
#[tactic(auto, unfolding(crate::specs::Texts::text_judged, text::specs::Refusals::first))]
pub fn text_field(f: &[u8], most: usize, mandatory: bool) -> Result<(), Refusal>
    ensures { result ≡ text_judged most mandatory f.now }
{
    if most < f.len() {
        return Err(Refusal::TextTooLong);
    }
    if mandatory && f.is_empty() {
        return Err(Refusal::FieldEmpty);
    }
    if holds(f, b'\t') {
        return Err(Refusal::Misspelt);
    }
    Ok(())
}

// 7, 8, 6, 9.
#[tactic(auto, unfolding(crate::specs::Texts::version_judged, text::specs::Refusals::first))]
pub fn version(f: &[u8]) -> Result<(), Refusal>
    ensures { result ≡ version_judged f.now }
{
    text_field(f, 200, true)?;
    if !same_text(f, b"2.0") {
        return Err(Refusal::OtherVersion);
    }
    Ok(())
}

// Only 10.
#[tactic(auto, unfolding(crate::specs::Texts::empty_judged, text::specs::Refusals::first))]
pub fn must_be_empty(f: &[u8]) -> Result<(), Refusal>
    ensures { result ≡ empty_judged f.now }
{
    if !f.is_empty() {
        return Err(Refusal::NotCarried);
    }
    Ok(())
}
