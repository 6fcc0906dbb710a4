// The lines of a card's listing, written into a lent slice: the heading, and the rows of a parameter in a frame of the card.
ghost use Rattle.std.specs.Prelude.{◌≡◌, ◌+◌, ◌≤◌, ◌<◌, length};
ghost use Rattle.io.specs.Counts.{IsPrefixLen};
ghost use Rattle.lay.specs.Bytes.{put};
ghost use Rattle.model.specs.Stored.{parameters_in, sample_count_in};
ghost use Rattle.model.specs.View.{view};
ghost use Rattle.listed.specs.Cards.{card_heading_text, card_row, card_row_most, card_rows, card_rows_most};

use crate::listing::{ROW, put_sample};
use crate::rows::put_field;
use frame::sized::Frame;
use lay::put::put_text;
use model::limits::SAMPLES_EACH;

// Enough for any parameter's rows: each has a position of at most twenty digits and a comma in front.
pub const CARD_ROWS: usize = (ROW + 21) * SAMPLES_EACH;

// Answers where it ends, as all of these do.
pub fn put_card_heading(out: &mut [u8]) -> usize
    requires { 37 ≤ length out.old }
    ensures value { (result ≡ length card_heading_text) × (out.new ≡ put out.old 0 card_heading_text) }
    ensures prefix_len { IsPrefixLen result out.new }
{
    put_text(out, 0, b"position,name,sample,width,raw,value\n");
    37
}

// The row of sample j of parameter i, both counted from 0, at o: the position, then the listing's row.
fn put_card_row(f: &Frame, position: u32, i: usize, j: usize, out: &mut [u8], o: usize) -> usize
    requires i_bound { i < parameters_in f.now.based.now.ruled.declared.table.bytes.now }
    requires j_bound { j < sample_count_in f.now.based.now.ruled.declared.table.bytes.now i }
    requires card_row_most_in_bounds { o + card_row_most ≤ length out.old }
    ensures { (result ≡ o + length (card_row (view f.now.based.now.ruled.declared.table.bytes.now) f.now.words.now position i j)) × (out.new ≡ put out.old o (card_row (view f.now.based.now.ruled.declared.table.bytes.now) f.now.words.now position i j)) }
{
    let a = put_field(out, o, position as u64, 44);
    put_sample(f, i, j, out, a)
}

// All rows of parameter i, counted from 0.
pub fn put_card_rows(f: &Frame, position: u32, i: usize, out: &mut [u8]) -> usize
    requires i_bound { i < parameters_in f.now.based.now.ruled.declared.table.bytes.now }
    requires card_rows_most_in_bounds { card_rows_most ≤ length out.old }
    ensures value { (result ≡ length (card_rows (view f.now.based.now.ruled.declared.table.bytes.now) f.now.words.now position i)) × (out.new ≡ put out.old 0 (card_rows (view f.now.based.now.ruled.declared.table.bytes.now) f.now.words.now position i)) }
    ensures prefix_len { IsPrefixLen result out.new }
{
    let e = f.based.ruled.declared.table.parameter_at(i);
    let count = e.count;
    let mut at = 0;
    for j in 0..count {
        at = put_card_row(f, position, i, j, out, at);
    }
    at
}
