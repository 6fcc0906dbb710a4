// Runs the cases of cases.bin in the current folder, a line each, so that any other reader of 01 can be held to the bench.
#![tactic(auto)]

mod cards;
mod case;
mod cases;
mod cursor;
mod frames;
mod make;
mod pages;
mod say;
mod sum;
mod tables;

use cases::{ended, run};
use intake::file_bytes;

// 500,001: a file that is too long is seen to be so.
fn main(rt: HostRuntime) {
    let mut file = [0u8; 500001];
    let mut words = [0u16; 40000];
    let mut table = [0u8; 200000];
    match file_bytes(&rt, b"cases.bin", &mut file) {
        Some(n) => run(&rt, &file[..n], &mut words, &mut table),
        None => ended(&rt),
    }
}
