// A frame read, filled and compared by a table. Parameters and samples are counted from 1.
ghost use Rattle.bench.specs.Promises.{Reads, ReadNumbered, Places, PlaceNumbered, Compares, CompareNumbered};

use framing::read::Reading;
use table::reason::{Reason, answer_number};

pub fn read(t: &[u8], words: &[u16], parameter: u32, sample: u32) -> Result<Reading, Reason>
    ensures { Reads t.now words.now parameter sample result }
{
    frame::read::read(t, words, parameter, sample)
}

// 0, 18, 21, 22, 19 or 20.
#[tactic(auto, unfolding(framing::specs::Reading::read_number))]
pub fn read_number(reading: Result<Reading, Reason>) -> u32
    ensures { ReadNumbered reading result }
{
    answer_number(&reading)
}

// A raw value placed; no word is changed where it is refused.
pub fn place(
    t: &[u8],
    words: &mut [u16],
    parameter: u32,
    sample: u32,
    value: u64,
) -> Result<(), Reason>
    ensures { Places t.now words.old parameter sample value result words.new }
{
    frame::place::place(t, words, parameter, sample, value)
}

// The same numbers, then 23.
#[tactic(auto, unfolding(framing::specs::Placing::place_number))]
pub fn place_number(placed: Result<(), Reason>) -> u32
    ensures { PlaceNumbered placed result }
{
    answer_number(&placed)
}

// The frame against its identifiers.
pub fn compare(t: &[u8], words: &[u16]) -> Result<Option<usize>, Reason>
    ensures { Compares t.now words.now result }
{
    frame::compare::compare(t, words)
}

// 0, 18, 19, 20 or 24.
pub fn compare_number(compared: Result<Option<usize>, Reason>) -> u32
    ensures { CompareNumbered compared result }
{
    frame::compare::compare_number(compared)
}
