// A card shown by a table, frame after frame. The table is opened although it was just made: the rows rest on it.
ghost use Rattle.std.specs.Prelude.{◌≡◌, true, ◌+◌, ◌*◌, ◌≤◌, length};
ghost use Rattle.model.specs.Frame.{frame_words};
ghost use Rattle.model.specs.View.{view};
ghost use Rattle.carding.specs.Layout.{frame_bits};
ghost use Rattle.carding.specs.Answer.{longest_stream, margins_told};

use bench::cards::{card, card_from};
use card::spans::span_of;
use frame::sized::Frame;
use intake::say::{put, text};
use listed::cards::{CARD_ROWS, put_card_heading, put_card_rows};
use listed::listing::put_refused;
use rules::based::BasedTable;
use rules::bases::{based, frame_words};
use table::check::opening;
use table::reason::{Reason, reason_number};

// The rows of each parameter in the frame at a position. They stand in a buffer here: of a closure that captures a frame `put` is
// told nothing.
fn rows(rt: &HostRuntime, f: &Frame, position: u32) {
    let mut out = [0u8; CARD_ROWS];
    for i in 0..f.based.ruled.declared.table.opened.counts.parameters {
        let n = put_card_rows(f, position, i, &mut out);
        text(rt, &out[..n]);
    }
}

// (The same line in listing: intake, which the programs share, knows no listing.)
pub fn refused(rt: &HostRuntime, number: u32, line: u32) {
    put::<50, _>(rt, |out| put_refused(out, number, line));
}

// The frame at the first position, whose words are there, and those behind it: each is looked for behind the last bit of the
// one before, until there is none.
fn frames(rt: &HostRuntime, b: &BasedTable, stream: &[u8], first: u32, words: &mut [u16])
    requires told { (margins_told b.now.ruled.declared.table.bytes.now ≡ true) × (length stream.now ≤ longest_stream) }
    requires t_bound { first + frame_bits (view b.now.ruled.declared.table.bytes.now) ≤ 8 * length stream.now }
    requires t_in_bounds { frame_words (view b.now.ruled.declared.table.bytes.now) ≤ length words.old }
{
    let count = frame_words(b);
    let span = span_of(&b.ruled.declared);
    let bits = span.bits as u32;
    let mut position = first;
    loop {
        let frame = Frame {
            based: b,
            words: &words[..count],
        };
        rows(rt, &frame, position);
        let Ok(next) = card_from(b.ruled.declared.table.bytes, stream, position + bits, words)
        else {
            return;
        };
        position = next.position;
    }
}

// The heading and the rows of every frame, or 18, 27, 26, 38 or 25.
fn carded(rt: &HostRuntime, t: &[u8], stream: &[u8], words: &mut [u16]) -> Result<(), Reason> {
    let r = opening(t).ok_or(Reason::NoTable)?;
    let found = card(t, stream, words)?;
    put::<37, _>(rt, |out| put_card_heading(out));
    frames(rt, &based(&r), stream, found.position, words);
    Ok(())
}

// What is no table is refused, and a card without a frame.
pub fn show(rt: &HostRuntime, t: &[u8], stream: &[u8], words: &mut [u16]) {
    if let Err(reason) = carded(rt, t, stream, words) {
        refused(rt, reason_number(reason), 0);
    }
}
