// A row of the listing, written into a lent slice. The place goes from call to call: it is what each promises, the text's length on.
ghost use Rattle.std.specs.Prelude.{◌≡◌, [], ◌∷◌, ◌++◌, ◌+◌, ◌≤◌, length};
ghost use Rattle.lay.specs.Bytes.{put};
ghost use Rattle.listed.specs.Decimals.{decimal_text, value_text};
ghost use Rattle.listed.specs.Lines.{row_text};

use crate::numbers::{put_decimal, put_value};
use lay::put::put_text;

// A text and the byte after it; answers where they end. A number and a value have their own below: each is one call and the byte.
pub fn put_part(out: &mut [u8], o: usize, t: &[u8], after: u8) -> usize
    requires { o + length t.now + 1 ≤ length out.old }
    ensures { (result ≡ o + length (t.now ++ (after ∷ []))) × (out.new ≡ put out.old o (t.now ++ (after ∷ []))) }
{
    put_text(out, o, t);
    let e = o + t.len();
    out[e] = after;
    e + 1
}

// A number and the byte after it.
pub fn put_field(out: &mut [u8], o: usize, n: u64, after: u8) -> usize
    requires { o + 21 ≤ length out.old }
    ensures { (result ≡ o + length (decimal_text n ++ (after ∷ []))) × (out.new ≡ put out.old o (decimal_text n ++ (after ∷ []))) }
{
    let e = put_decimal(out, o, n);
    out[e] = after;
    e + 1
}

// A value and the byte after it.
fn put_last(out: &mut [u8], o: usize, v: i64, after: u8) -> usize
    requires { o + 22 ≤ length out.old }
    ensures { (result ≡ o + length (value_text v ++ (after ∷ []))) × (out.new ≡ put out.old o (value_text v ++ (after ∷ []))) }
{
    let e = put_value(out, o, v);
    out[e] = after;
    e + 1
}

// A whole row; 86 bytes are enough beside the name.
pub fn put_row(
    out: &mut [u8],
    o: usize,
    name: &[u8],
    sample: u64,
    width: u64,
    raw: u64,
    value: i64,
) -> usize
    requires { o + length name.now + 86 ≤ length out.old }
    ensures { (result ≡ o + length (row_text name.now sample width raw value)) × (out.new ≡ put out.old o (row_text name.now sample width raw value)) }
{
    let a = put_part(out, o, name, b',');
    let b = put_field(out, a, sample, b',');
    let c = put_field(out, b, width, b',');
    let d = put_field(out, c, raw, b',');
    put_last(out, d, value, b'\n')
}
