// Digits of a base up to ten, the number that they spell, and digits parted by a mark.
ghost use Rattle.std.specs.Prelude.{◌≡◌, true, ◌^◌, ◌<◌, ◌≤◌, length, drop};
ghost use Rattle.spell.specs.Digits.{is_digit, all_digits, digits_up_to, place_of, places, number as number_of, is_marked};

use text::part::{holds, past_first, up_to};

fn digit(b: u8, base: u64) -> bool
    requires { base ≤ 10 }
    ensures { result ≡ is_digit base b }
{
    b'0' <= b && (b as u64) < 48 + base
}

// 1 to n digits.
#[tactic(auto, unfolding(crate::specs::Digits::digits_up_to))]
pub fn digits_up_to(s: &[u8], n: usize, base: u64) -> bool
    requires { base ≤ 10 }
    ensures { result ≡ digits_up_to base n s.now }
{
    !s.is_empty() && s.len() <= n && s.iter().all(|&b| digit(b, base))
}

// The digit at i, or 0 past the end.
#[tactic(auto, using(crate::proofs::DigitLaws::digit_at, crate::proofs::DigitLaws::place_digit, crate::proofs::DigitLaws::place_past))]
fn place(s: &[u8], i: usize, base: u64) -> u64
    requires { (base ≤ 10) × (all_digits base s.now ≡ true) }
    ensures { (result ≡ place_of (drop i s.now)) × (result ≤ 9) }
{
    if i < s.len() { (s[i] - b'0') as u64 } else { 0 }
}

// The value of n places, those past the end counting 0.
#[tactic(auto, using(crate::proofs::DigitLaws::places_start, crate::proofs::DigitLaws::product_small, crate::proofs::DigitLaws::total_small, crate::proofs::DigitLaws::place_more, crate::proofs::DigitLaws::places_all))]
pub fn value(s: &[u8], n: usize, base: u64) -> u64
    requires { (n ≤ 10) × (base ≤ 10) × (all_digits base s.now ≡ true) }
    ensures { (result ≡ places base n 0 s.now) × (result < 10 ^ n) }
{
    let mut total: u64 = 0;
    for i in 0..n {
        total = total * base + place(s, i, base);
    }
    total
}

// The number that decimal digits spell.
#[tactic(auto, unfolding(crate::specs::Digits::number))]
pub fn number(s: &[u8]) -> u64
    requires { (length s.now ≤ 10) × (all_digits 10 s.now ≡ true) }
    ensures { (result ≡ number_of 10 s.now) × (result < 10 ^ length s.now) }
{
    value(s, s.len(), 10)
}

// 1 to n digits; or these, the mark, and 1 to m digits.
#[tactic(auto, unfolding(crate::specs::Digits::is_marked))]
pub fn marked(s: &[u8], mark: u8, n: usize, m: usize) -> bool
    ensures { result ≡ is_marked mark n m s.now }
{
    digits_up_to(up_to(s, mark), n, 10)
        && (!holds(s, mark) || digits_up_to(past_first(s, mark), m, 10))
}
