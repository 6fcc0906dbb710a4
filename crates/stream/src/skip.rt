// Positions of a stream passed over, eight with each load.
ghost use Rattle.std.specs.Prelude.{◌/◌, ◌≤◌, ◌<◌, length};
ghost use Rattle.stream.specs.Promise.{Skips, EightUnlike, FirstLike, BitIn};

use super::byte_of;

// From none of the eight lowest bits of v on are the n bits `want`. A loop over what is written here has shifts by constants,
// which cost less than by a count.
fn eight_unlike(v: u64, n: u32, want: u64) -> bool
    requires { n ≤ 16 }
    ensures { EightUnlike v n want result }
{
    for j in 0..8 {
        if bits::field_of(v, j, n) == want {
            return false;
        }
    }
    true
}

// The first bit from s on, below 8, from which the n bits of v are `want`.
fn first_like(v: u64, s: u32, n: u32, want: u64) -> Option<u32>
    requires { n ≤ 16 }
    ensures { FirstLike v s n want result }
{
    for j in s..8 {
        if bits::field_of(v, j, n) == want {
            return Some(j);
        }
    }
    None
}

// The bit of byte a at which position k stands: 0 where it stands before.
fn bit_in(a: usize, k: usize) -> u32
    requires { (k / 8 ≤ a) × (a < 1152921504606846976) }
    ensures { BitIn a k result }
{
    k.saturating_sub(8 * a) as u32
}

// A position at or behind k before which the n bits are never `want`. Where fewer than four bytes are left the caller looks at
// each.
pub fn skip_unlike(stream: &[u8], k: usize, n: u32, want: u64) -> usize
    requires { (length stream.now ≤ 65536) × (k < 8589934592) × (n ≤ 16) }
    ensures { Skips stream.now k n want result }
{
    let mut a = byte_of(k);
    // a while: where it ends is needed behind it
    while a + 4 <= stream.len() {
        let v = lay::four_at(stream, a) as u64;
        if !eight_unlike(v, n, want) {
            if let Some(j) = first_like(v, bit_in(a, k), n, want) {
                return 8 * a + j as usize;
            }
        }
        a += 1;
    }
    8 * a + bit_in(a, k) as usize
}
