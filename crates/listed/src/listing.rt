// The lines of the listing, written into a lent slice: the heading, the rows of a parameter, a refusal; and a frame's words.
ghost use Rattle.std.specs.Prelude.{◌≡◌, ◌+◌, ◌*◌, ◌≤◌, ◌<◌, length};
ghost use Rattle.io.specs.Counts.{IsPrefixLen};
ghost use Rattle.lay.specs.Bytes.{put};
ghost use Rattle.model.specs.Stored.{parameters_in, sample_count_in, name_in};
ghost use Rattle.model.specs.View.{view};
ghost use Rattle.listed.specs.Lines.{row_text};
ghost use Rattle.listed.specs.Listing.{heading_text, sample_row, row_most, parameter_rows, rows_most, refused_text, fit_number, words_of};

use crate::rows::{put_field, put_part, put_row};
use frame::read::sample_in;
use frame::sized::Frame;
use framing::read::Reading;
use lay::put::put_text;
use model::limits::{SAMPLES_EACH, TEXT};
use rules::ruled::RuledTable;
use rules::texts::name_in;
use table::reason::{Reason, answer_number};

// Enough for any row beside its name, any row, and any parameter's rows.
const BESIDE: usize = 86;

pub const ROW: usize = TEXT + BESIDE;

pub const ROWS: usize = ROW * SAMPLES_EACH;

// Answers where it ends, as all of these do.
pub fn put_heading(out: &mut [u8]) -> usize
    requires { 28 ≤ length out.old }
    ensures value { (result ≡ length heading_text) × (out.new ≡ put out.old 0 heading_text) }
    ensures prefix_len { IsPrefixLen result out.new }
{
    put_text(out, 0, b"name,sample,width,raw,value\n");
    28
}

// Line 0 where no line is to be named.
pub fn put_refused(out: &mut [u8], number: u32, line: u32) -> usize
    requires { 50 ≤ length out.old }
    ensures value { (result ≡ length (refused_text number line)) × (out.new ≡ put out.old 0 (refused_text number line)) }
    ensures prefix_len { IsPrefixLen result out.new }
{
    let a = put_part(out, 0, b"refused", 32);
    let b = put_field(out, a, number as u64, 32);
    put_field(out, b, line as u64, 10)
}

// 01's number of a frame's fit: 0 where it fits.
#[tactic(auto, unfolding(crate::specs::Listing::fit_number))]
pub fn fit_number(fit: Result<(), Reason>) -> u32
    ensures { result ≡ fit_number fit }
{
    answer_number(&fit)
}

// The row of what was read of sample j of parameter i, both counted from 0, at o.
fn put_read(
    r: &RuledTable,
    i: usize,
    j: usize,
    raw: u32,
    width: u32,
    value: i64,
    out: &mut [u8],
    o: usize,
) -> usize
    requires i_bound { i < parameters_in r.now.declared.table.bytes.now }
    requires j_bound { j < sample_count_in r.now.declared.table.bytes.now i }
    requires row_most_in_bounds { o + row_most ≤ length out.old }
    ensures { (result ≡ o + length (row_text (name_in r.now.declared.table.bytes.now i) (j + 1) width raw value)) × (out.new ≡ put out.old o (row_text (name_in r.now.declared.table.bytes.now i) (j + 1) width raw value)) }
{
    let name = name_in(&r.declared.table, i);
    put_row(out, o, name, j as u64 + 1, width as u64, raw as u64, value)
}

// The row of that sample, whether its copies agree or not.
pub fn put_sample(f: &Frame, i: usize, j: usize, out: &mut [u8], o: usize) -> usize
    requires i_bound { i < parameters_in f.now.based.now.ruled.declared.table.bytes.now }
    requires j_bound { j < sample_count_in f.now.based.now.ruled.declared.table.bytes.now i }
    requires row_most_in_bounds { o + row_most ≤ length out.old }
    ensures { (result ≡ o + length (sample_row (view f.now.based.now.ruled.declared.table.bytes.now) f.now.words.now i j)) × (out.new ≡ put out.old o (sample_row (view f.now.based.now.ruled.declared.table.bytes.now) f.now.words.now i j)) }
{
    // Two arms: of one pattern for both, which binds a signed number, the proof did not close.
    match sample_in(f, i, j) {
        Reading::Sample { raw, width, value } => {
            put_read(&f.based.ruled, i, j, raw, width, value, out, o)
        }
        Reading::OverlapDiffers { raw, width, value } => {
            put_read(&f.based.ruled, i, j, raw, width, value, out, o)
        }
    }
}

// All rows of parameter i, counted from 0.
pub fn put_parameter(f: &Frame, i: usize, out: &mut [u8]) -> usize
    requires i_bound { i < parameters_in f.now.based.now.ruled.declared.table.bytes.now }
    requires rows_most_in_bounds { rows_most ≤ length out.old }
    ensures value { (result ≡ length (parameter_rows (view f.now.based.now.ruled.declared.table.bytes.now) f.now.words.now i)) × (out.new ≡ put out.old 0 (parameter_rows (view f.now.based.now.ruled.declared.table.bytes.now) f.now.words.now i)) }
    ensures prefix_len { IsPrefixLen result out.new }
{
    let e = f.based.ruled.declared.table.parameter_at(i);
    let count = e.count;
    let mut at = 0;
    for j in 0..count {
        at = put_sample(f, i, j, out, at);
    }
    at
}

// The words that the bytes spell; an odd last byte is left out.
pub fn put_words(bytes: &[u8], words: &mut [u16])
    requires { length bytes.now ≤ 2 * length words.old }
    ensures { words.new ≡ put words.old 0 (words_of bytes.now) }
{
    // Not by `words.iter_mut().zip(..)`: of what is written through it a proof knows the length alone.
    for (i, pair) in bytes.as_chunks::<2>().0.iter().enumerate() {
        words[i] = u16::from_le_bytes(*pair);
    }
}
