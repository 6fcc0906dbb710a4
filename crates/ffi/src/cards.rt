// Quick access cards: the first frame in a card's bits, by a table.
ghost use Rattle.std.specs.Prelude.{◌≡◌};
ghost use Rattle.ffi.specs.Structs.{carded_out};
ghost use Rattle.ffi.specs.Promises.{CardsOut, FrameBitsOut};

use bench::cards::{card, card_from, card_number, frame_bits};
use carding::carded::Found;
use table::reason::Reason;

// The number is 0, `position` the bits before the frame and `count` its words; both are 0 where the card is refused.
#[repr(C)]
#[derive(Clone, Copy)]
pub struct OrbCarded {
    pub number: u32,
    pub position: u32,
    pub count: u32,
}

fn carded_out(carded: Result<Found, Reason>) -> OrbCarded
    ensures { result ≡ carded_out carded }
{
    let number = card_number(carded);
    match carded {
        Ok(found) => OrbCarded {
            number,
            position: found.position,
            count: found.count,
        },
        Err(_) => OrbCarded {
            number,
            position: 0,
            count: 0,
        },
    }
}

// The first frame of all: its words at the front of the lent ones; no word is changed where there is none.
pub fn orb_card(table: &[u8], stream: &[u8], words: &mut [u16]) -> OrbCarded
    ensures { CardsOut table.now stream.now 0 words.old result words.new }
{
    carded_out(card(table, stream, words))
}

// The first frame at or behind bit `from`.
pub fn orb_card_from(table: &[u8], stream: &[u8], from: u32, words: &mut [u16]) -> OrbCarded
    ensures { CardsOut table.now stream.now from words.old result words.new }
{
    carded_out(card_from(table, stream, from, words))
}

// How many bits a frame has, its margins too; 0 where the bytes are no table, or one that does not tell its margins.
pub fn orb_frame_bits(table: &[u8]) -> u32
    ensures { FrameBitsOut table.now result }
{
    frame_bits(table)
}
