// Items of any layout: numbers of any width at any place.
ghost use Rattle.std.specs.Prelude.{◌≡◌, true, ◌+◌, ◌<◌, ◌≤◌, length};
ghost use Rattle.lay.specs.Bytes.{num_at, bytes_of, put};
ghost use Rattle.lay.specs.Slots.{plain, long};

use super::put::{put_eight, put_four, put_one, put_two};
use super::{eight_at, four_at, one_at, two_at};

// Where an item stands in its entry, and in how many bytes; 0 where the form has no such item:
// so the definitions of the forms have it.
#[derive(Clone, Copy)]
pub struct Place {
    pub at: usize,
    pub wide: usize,
}

// The item of the entry at o.
pub fn item_at(t: &[u8], o: usize, p: Place) -> usize
    requires wide_in_bounds { o + p.at + p.wide ≤ length t.now }
    requires wide_value { plain p.wide ≡ true }
    ensures { (result ≡ num_at p.wide t.now (o + p.at)) × (result < 4294967296) }
{
    match p.wide {
        1 => one_at(t, o + p.at),
        2 => two_at(t, o + p.at),
        4 => four_at(t, o + p.at),
        _ => 0,
    }
}

// The same where it may be eight bytes wide. (Beside the other: almost every item fits a usize, and its promise says so.)
pub fn long_at(t: &[u8], o: usize, p: Place) -> u64
    requires wide_in_bounds { o + p.at + p.wide ≤ length t.now }
    requires wide_value { long p.wide ≡ true }
    ensures { result ≡ num_at p.wide t.now (o + p.at) }
{
    match p.wide {
        8 => eight_at(t, o + p.at),
        _ => item_at(t, o, p) as u64,
    }
}

// The number into the item of the entry at o.
pub fn put_item(out: &mut [u8], o: usize, p: Place, n: usize)
    requires wide_in_bounds { o + p.at + p.wide ≤ length out.old }
    requires wide_value { plain p.wide ≡ true }
    ensures { out.new ≡ put out.old (o + p.at) (bytes_of p.wide n) }
{
    match p.wide {
        1 => put_one(out, o + p.at, n),
        2 => put_two(out, o + p.at, n),
        4 => put_four(out, o + p.at, n),
        _ => {}
    }
}

pub fn put_long(out: &mut [u8], o: usize, p: Place, n: u64)
    requires wide_in_bounds { o + p.at + p.wide ≤ length out.old }
    requires wide_value { long p.wide ≡ true }
    ensures { out.new ≡ put out.old (o + p.at) (bytes_of p.wide n) }
{
    match p.wide {
        8 => put_eight(out, o + p.at, n),
        _ => put_item(out, o, p, n as usize),
    }
}
