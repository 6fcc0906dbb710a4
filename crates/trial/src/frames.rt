// Kinds 3, 4 and 5: a frame read, filled and compared by a table.
use crate::case::Frame;
use crate::say::{line, value_line};
use crate::sum::of_items;
use bench::frames::{compare, compare_number, place, place_number, read, read_number};
use bench::texts::words_of;
use framing::page::Request;
use framing::read::Reading;

// A frame's words, at the front of the lent ones; None where these are too few.
pub fn spelt<'w>(frame: Frame, words: &'w mut [u16]) -> Option<&'w mut [u16]> {
    if words_of(frame.words, words) != 0 {
        return None;
    }
    words.get_mut(..frame.words.len() / 2)
}

// The kinds 1, 2 and 0 of a reading, as a page has them: the single read of the bench answers the reading itself.
pub fn read_line(rt: &HostRuntime, table: &[u8], words: &[u16], of: Request) {
    let answer = read(table, words, of.parameter, of.sample);
    let number = read_number(answer);
    let (kind, width, raw, value) = match answer {
        Ok(Reading::Sample { raw, width, value }) => (1, width, raw, value),
        Ok(Reading::OverlapDiffers { raw, width, value }) => (2, width, raw, value),
        Err(_) => (0, 0, 0, 0),
    };
    let said = [3, number.into(), kind, width.into(), raw.into()];
    value_line(rt, &said, value);
}

pub fn place_line(rt: &HostRuntime, table: &[u8], words: &mut [u16], of: Request, value: u64) {
    let number = place_number(place(table, words, of.parameter, of.sample, value));
    let sum = of_items(words);
    line(rt, &[4, number.into()], sum);
}

// With the subframe that differs, or 0.
pub fn compare_line(rt: &HostRuntime, table: &[u8], words: &[u16]) {
    let answer = compare(table, words);
    let number = compare_number(answer);
    let subframe = answer.ok().flatten().unwrap_or(0);
    line(rt, &[5, number.into()], subframe as u64);
}
