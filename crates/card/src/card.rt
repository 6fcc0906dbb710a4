// A card read, with its refusals: "after 18, 27 for a table without parameters; 38 for a longer stream; then 25 exactly when
// no such position exists; then 28 for a lent word slice too short; words beyond the frame stay"; and 26 after 27.
ghost use Rattle.std.specs.Prelude.{◌≡◌, true, ◌≤◌, ◌<◌, length};
ghost use Rattle.model.specs.View.{view};
ghost use Rattle.carding.specs.Answer.{longest_stream, margins_told, searched, handed_for, carded_of, handed_of, bits_of_frame};

use super::hand::hand_out;
use super::margins::margins_told;
use super::search::position_from;
use super::spanned::SpannedTable;
use super::spans::span_of;
use carding::carded::{Found, LONGEST_STREAM};
use rules::bases::{based, frame_words};
use rules::ruled::RuledTable;
use table::check::opening;
use table::reason::Reason;

// 25, 28, or the frame's words handed out.
#[tactic(auto, using(crate::proofs::SpanLaws::few_words_lem, crate::proofs::Searching::found_there))]
fn search(r: &RuledTable, stream: &[u8], from: usize, words: &mut [u16]) -> Result<Found, Reason>
    requires told { margins_told r.now.declared.table.bytes.now ≡ true }
    requires stream_len_bound { (length stream.now ≤ longest_stream) × (from < 4294967296) }
    ensures { (result ≡ searched (view r.now.declared.table.bytes.now) stream.now from words.old) × (words.new ≡ handed_for (view r.now.declared.table.bytes.now) stream.now words.old result) }
{
    let span = span_of(&r.declared);
    let begins = span.begins;
    let s = SpannedTable { ruled: *r, begins };
    let position = position_from(&s, stream, from, span.bits).ok_or(Reason::NoFrame)?;
    let count = frame_words(&based(r));
    if words.len() < count {
        return Err(Reason::FewWords);
    }
    hand_out(&s, stream, position, words);
    Ok(Found {
        position: position as u32,
        count: count as u32,
    })
}

// The first frame at or behind bit `from`; its words stand in front of what the words had behind them.
pub fn card_from(t: &[u8], stream: &[u8], from: u32, words: &mut [u16]) -> Result<Found, Reason>
    ensures { (result ≡ carded_of t.now stream.now from words.old) × (words.new ≡ handed_of t.now stream.now from words.old) }
{
    let r = opening(t).ok_or(Reason::NoTable)?;
    if r.declared.table.opened.counts.parameters == 0 {
        return Err(Reason::NoParameters);
    }
    if !margins_told(&r.declared.table) {
        return Err(Reason::UnknownMargin);
    }
    if LONGEST_STREAM < stream.len() {
        return Err(Reason::LongStream);
    }
    search(&r, stream, from as usize, words)
}

// How many bits a frame has, its margins too; 0 where the bytes are no table, or one that does not tell its margins.
pub fn frame_bits(t: &[u8]) -> u32
    ensures { result ≡ bits_of_frame t.now }
{
    match opening(t) {
        Some(r) if margins_told(&r.declared.table) => span_of(&r.declared).bits as u32,
        _ => 0,
    }
}
