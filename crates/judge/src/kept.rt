// What is kept of a line's record pair and of the open parameter.
ghost use Rattle.std.specs.Prelude.{◌≡◌, ◌^◌, ltb};
ghost use Rattle.judge.specs.Keeping.{is_record_line, words_said, bits_said, good_in};

use crate::sampling::Sampling;
use crate::tally::Tally;
use lineforms::due::Form;
use lineforms::said::pair_in;

fn is_record_line(form: Form) -> bool
    ensures { result ≡ is_record_line form }
{
    matches!(form, Form::RecordLine)
}

// A record line's words, for another line 0.
pub fn words_in(form: Form, line: &[u8]) -> u64
    ensures { result ≡ words_said form line.now }
{
    if is_record_line(form) {
        pair_in(line).words
    } else {
        0
    }
}

// A record line's bits per word, for another line 0. (Two functions: a definition each, `words_said` and `bits_said`.)
pub fn bits_in(form: Form, line: &[u8]) -> u64
    ensures { result ≡ bits_said form line.now }
{
    if is_record_line(form) {
        pair_in(line).bits
    } else {
        0
    }
}

// Whether a value fits so many bits. Every value here fits 64.
fn fits(value: u64, width: u64) -> bool
    ensures { result ≡ ltb value (2 ^ width) }
{
    64 <= width || value < bits::power_of_two(width as u32)
}

// Whether the open parameter is an identifier that alone is in order.
#[tactic(auto, unfolding(crate::specs::Keeping::good_in))]
pub fn is_good(x: Tally, g: Sampling) -> bool
    ensures { result ≡ good_in x g }
{
    x.identifier && x.own == 1 && g.within && !x.signed && fits(x.value, g.first)
}
