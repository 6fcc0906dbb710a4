// Quick access cards: the first frame in a card's bits, by a table.
ghost use Rattle.bench.specs.Promises.{Cards, CardNumbered, FrameBits};

use carding::carded::Found;
use table::reason::{Reason, answer_number};

// The first frame at or behind bit `from`: its words at the front of the lent ones; no word is changed where there is none.
pub fn card_from(t: &[u8], stream: &[u8], from: u32, words: &mut [u16]) -> Result<Found, Reason>
    ensures { Cards t.now stream.now from words.old result words.new }
{
    card::card::card_from(t, stream, from, words)
}

// The first frame of all.
pub fn card(t: &[u8], stream: &[u8], words: &mut [u16]) -> Result<Found, Reason>
    ensures { Cards t.now stream.now 0 words.old result words.new }
{
    card_from(t, stream, 0, words)
}

// 0, 18, 27, 26, 38, 25 or 28. (Each kind of answer has a call of its own for its number, with a definition of that name.)
#[tactic(auto, unfolding(carding::specs::Answer::carded_number))]
pub fn card_number(carded: Result<Found, Reason>) -> u32
    ensures { CardNumbered carded result }
{
    answer_number(&carded)
}

// How many bits a frame has: a card's next frame is looked for from the last one's position and so many bits on. 0 where the
// bytes are no table, or one that does not tell its margins: so the call promises it.
pub fn frame_bits(t: &[u8]) -> u32
    ensures { FrameBits t.now result }
{
    card::card::frame_bits(t)
}
