// A stream of bits: "the low bit of each byte .. first".
#![tactic(auto)]

pub mod skip;

ghost use Rattle.std.specs.Prelude.{◌≡◌, ◌/◌, ◌%◌, ◌≤◌, ◌<◌, ◌^◌, get_or};
ghost use Rattle.stream.specs.Stream.{bits_from};
ghost use Rattle.stream.specs.Promise.{Window};

// The byte at i, or 0 beyond the end.
fn byte_or_zero(stream: &[u8], i: usize) -> u64
    ensures { (result ≡ get_or stream.now i 0) × (result < 256) }
{
    u64::from(stream.get(i).copied().unwrap_or(0))
}

// The bytes from a on: four at once where there are so many, which is one load; else three, zeros beyond the end.
fn window_at(stream: &[u8], a: usize) -> u64
    requires { a < 2305843009213693952 }
    ensures { Window 3 stream.now a result }
{
    if a + 4 <= stream.len() {
        return lay::four_at(stream, a) as u64;
    }
    byte_or_zero(stream, a)
        + bits::raised(byte_or_zero(stream, a + 1), 8)
        + bits::raised(byte_or_zero(stream, a + 2), 16)
}

// The byte in which bit k of a stream stands, and which bit of it that is.
fn byte_of(k: usize) -> usize
    ensures { result ≡ k / 8 }
{
    bits::bits_above(k as u64, 3) as usize
}

fn bit_of(k: usize) -> u32
    ensures { result ≡ k % 8 }
{
    bits::low_bits_of(k as u64, 3) as u32
}

// The number of n bits that stands in the stream from bit k on: 24 bits hold any 16 of them from any bit of a byte on.
pub fn bits_at(stream: &[u8], k: usize, n: u32) -> u64
    requires { n ≤ 16 }
    ensures { (result ≡ bits_from stream.now k n) × (result < 2 ^ n) }
{
    bits::field_of(window_at(stream, byte_of(k)), bit_of(k), n)
}
