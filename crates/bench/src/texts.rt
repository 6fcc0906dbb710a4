// The listing's texts, each put at the front of the lent bytes. Answered is a text's length: 0, and no byte is changed, where
// there is nothing to write or the lent bytes are too few. (A number and no Option: so these calls promise it.)
ghost use Rattle.std.specs.Prelude.{◌≡◌, ◌+◌, ◌≤◌, length};
ghost use Rattle.lay.specs.Bytes.{put};
ghost use Rattle.table.specs.Answers.{asked_number, name_answered};
ghost use Rattle.listed.specs.Lines.{row_text};
ghost use Rattle.listed.specs.Listing.{heading_text, refused_text, row_most};
ghost use Rattle.bench.specs.Texts.{Fills, row_for, WordsFill};

use crate::frames::read;
use crate::tables::name;
use framing::read::Reading;
use listed::listing::{ROW, put_heading, put_refused, put_words};
use listed::rows::put_row;

// 28 bytes.
pub fn heading(out: &mut [u8]) -> usize
    ensures { Fills heading_text 28 out.old result out.new }
{
    if out.len() < 28 {
        return 0;
    }
    put_heading(out)
}

// `refused N L`; 50 bytes are enough.
pub fn refusal(number: u32, line: u32, out: &mut [u8]) -> usize
    ensures { Fills (refused_text number line) 50 out.old result out.new }
{
    if out.len() < 50 {
        return 0;
    }
    put_refused(out, number, line)
}

// The row of what was read, by the parameter's name.
fn put_named(
    t: &[u8],
    parameter: u32,
    sample: u32,
    raw: u32,
    width: u32,
    value: i64,
    out: &mut [u8],
) -> usize
    requires { row_most ≤ length out.old }
    ensures { (result ≡ 0 + length (row_text (name_answered t.now (asked_number t.now parameter)) sample width raw value)) × (out.new ≡ put out.old 0 (row_text (name_answered t.now (asked_number t.now parameter)) sample width raw value)) }
{
    put_row(
        out,
        0,
        name(t, parameter),
        sample as u64,
        width as u64,
        raw as u64,
        value,
    )
}

// The row of a sample, both counted from 1, whether its copies agree or not; ROW bytes are enough. Nothing where the read is
// refused.
pub fn row(t: &[u8], words: &[u16], parameter: u32, sample: u32, out: &mut [u8]) -> usize
    ensures { Fills (row_for t.now words.now parameter sample) row_most out.old result out.new }
{
    if out.len() < ROW {
        return 0;
    }
    // Two arms: of one pattern for both, which binds a signed number, the proof did not close.
    match read(t, words, parameter, sample) {
        Ok(Reading::Sample { raw, width, value }) => {
            put_named(t, parameter, sample, raw, width, value, out)
        }
        Ok(Reading::OverlapDiffers { raw, width, value }) => {
            put_named(t, parameter, sample, raw, width, value, out)
        }
        Err(_) => 0,
    }
}

// The words that a frame's bytes spell; 19 for an odd byte, or more words than are lent. (The number, as the call promises it.)
pub fn words_of(bytes: &[u8], words: &mut [u16]) -> u32
    ensures { WordsFill bytes.now words.old result words.new }
{
    if bytes.len() % 2 == 1 {
        return 19;
    }
    if words.len() < bytes.len() / 2 {
        return 19;
    }
    put_words(bytes, words);
    0
}
