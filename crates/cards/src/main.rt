// The listing of a quick access card: sheet.frcs and card.bin in the current folder.
#![tactic(auto)]

mod show;

use bench::sheets::make;
use carding::carded::LONGEST_STREAM;
use intake::file_bytes;
use model::limits::{SUBFRAMES, WORDS};
use show::{refused, show};
use text::refusal::refusal_number;

// A sheet or a card that is too long is seen to be so; there are as many words as a frame has at most. A file that is missing
// has no bytes.
#[tactic(auto, using(maker::proofs::MadeTables::made_room))]
fn main(rt: HostRuntime) {
    let mut sheet = [0u8; 65537];
    let mut card = [0u8; LONGEST_STREAM + 1];
    let mut words = [0u16; SUBFRAMES * WORDS];
    let mut table = [0u8; 65536];
    let n = file_bytes(&rt, b"sheet.frcs", &mut sheet).unwrap_or(0);
    let m = file_bytes(&rt, b"card.bin", &mut card).unwrap_or(0);
    match make(&sheet[..n], &mut table) {
        Ok(length) => show(&rt, &table[..length], &card[..m], &mut words),
        Err(rejected) => refused(&rt, refusal_number(rejected.refusal), rejected.line),
    }
}
