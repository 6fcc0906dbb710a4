// Case after case.
use crate::cards::card_line;
use crate::case::Case;
use crate::cursor::Cursor;
use crate::frames::{compare_line, place_line, read_line, spelt};
use crate::make::make_line;
use crate::pages::page_line;
use crate::tables::{check_line, mnemonic_line, name_line};
use intake::say::text;

// The line of a case; none where more is lent than there is room for.
fn line(rt: &HostRuntime, case: Case, words: &mut [u16], table: &mut [u8]) -> Option<()> {
    match case {
        Case::Make(sheet, lent) => make_line(rt, sheet, table.get_mut(..lent)?),
        Case::Check(table) => check_line(rt, table),
        Case::Read(frame, of) => read_line(rt, frame.table, spelt(frame, words)?, of),
        Case::Place(frame, of, value) => {
            place_line(rt, frame.table, spelt(frame, words)?, of, value)
        }
        Case::Compare(frame) => compare_line(rt, frame.table, spelt(frame, words)?),
        Case::Name(table, parameter) => name_line(rt, table, parameter),
        Case::NameBy(table, mnemonic) => mnemonic_line(rt, table, mnemonic),
        Case::Card(table, stream, from, lent) => {
            card_line(rt, table, stream, from, words.get_mut(..lent)?)
        }
        Case::Page(frame, asked, lent) => {
            page_line(rt, frame.table, spelt(frame, words)?, asked, lent)?
        }
    }
    Some(())
}

// A line for each case; None where one is cut off.
fn lines(rt: &HostRuntime, file: &[u8], words: &mut [u16], table: &mut [u8]) -> Option<()> {
    let mut c = Cursor { rest: file };
    while !c.rest.is_empty() {
        let case = c.case()?;
        line(rt, case, words, table)?;
    }
    Some(())
}

// Of a file that is too long no case is run.
pub fn run(rt: &HostRuntime, file: &[u8], words: &mut [u16], table: &mut [u8]) {
    if 500000 < file.len() || lines(rt, file, words, table).is_none() {
        ended(rt);
    }
}

// What the output says of a file that is missing, of one too long, and of a case that is cut off.
pub fn ended(rt: &HostRuntime) {
    text(rt, b"end of cases\n");
}
