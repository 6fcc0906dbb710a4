// A frame shown by a table. The table is opened although it was just made, and the frame judged once: the rows rest on both.
use bench::texts::words_of;
use frame::fit::fit_of;
use frame::sized::Frame;
use intake::say::{put, text};
use listed::listing::{ROWS, fit_number, put_heading, put_parameter, put_refused};
use rules::bases::based;
use table::check::opening;
use table::reason::Reason;

// The rows of each parameter. They stand in a buffer here: of a closure that captures a frame `put` is told nothing.
fn rows(rt: &HostRuntime, f: &Frame) {
    let mut out = [0u8; ROWS];
    for i in 0..f.based.ruled.declared.table.opened.counts.parameters {
        let n = put_parameter(f, i, &mut out);
        text(rt, &out[..n]);
    }
}

pub fn refused(rt: &HostRuntime, number: u32, line: u32) {
    put::<50, _>(rt, |out| put_refused(out, number, line));
}

// 18, 19 and 20, or the heading and the rows.
#[tactic(auto, using(framing::proofs::WantCases::fits_long))]
fn fitted(rt: &HostRuntime, t: &[u8], words: &[u16]) -> Result<(), Reason> {
    let r = opening(t).ok_or(Reason::NoTable)?;
    let b = based(&r);
    fit_of(&b, words)?;
    put::<28, _>(rt, |out| put_heading(out));
    rows(rt, &Frame { based: &b, words });
    Ok(())
}

// An odd byte, or more words than are lent, is 19.
#[tactic(auto, using(crate::proofs::Rooms::words_room))]
pub fn show(rt: &HostRuntime, t: &[u8], frame: &[u8], words: &mut [u16]) {
    let number = words_of(frame, words);
    if number != 0 {
        return refused(rt, number, 0);
    }
    let number = fit_number(fitted(rt, t, &words[..frame.len() / 2]));
    if number != 0 {
        refused(rt, number, 0);
    }
}
