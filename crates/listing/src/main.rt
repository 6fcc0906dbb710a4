// The listing of sheet.frcs and frame.bin in the current folder, as 01's "The sheet on the wall" has it.
#![tactic(auto)]

mod show;

use bench::sheets::make;
use intake::file_bytes;
use model::limits::{SUBFRAMES, WORDS};
use show::{refused, show};
use text::refusal::refusal_number;

// One word more than a frame has at most.
const MORE_WORDS: usize = SUBFRAMES * WORDS + 1;

// A sheet that is too long, and a frame longer than any table's, are seen to be so; a file that is missing has no bytes.
#[tactic(auto, using(maker::proofs::MadeTables::made_room))]
fn main(rt: HostRuntime) {
    let mut sheet = [0u8; 65537];
    let mut frame = [0u8; 2 * MORE_WORDS];
    let mut words = [0u16; MORE_WORDS];
    let mut table = [0u8; 65536];
    let n = file_bytes(&rt, b"sheet.frcs", &mut sheet).unwrap_or(0);
    let m = file_bytes(&rt, b"frame.bin", &mut frame).unwrap_or(0);
    match make(&sheet[..n], &mut table) {
        Ok(length) => show(&rt, &table[..length], &frame[..m], &mut words),
        Err(rejected) => refused(&rt, refusal_number(rejected.refusal), rejected.line),
    }
}
