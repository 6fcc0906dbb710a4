// The lent bytes: all alike before a call, and those that a call must leave.
use intake::say::text;

pub const UNTOUCHED: u8 = 165;

// Says so where one of the bytes from index `from` on has changed.
pub fn kept(rt: &HostRuntime, lent: &[u8], from: usize) {
    if lent.iter().skip(from).any(|b| *b != UNTOUCHED) {
        text(rt, b" CHANGED");
    }
}
