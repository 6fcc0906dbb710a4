// Numbers written into a lent slice, as text.
ghost use Rattle.std.specs.Prelude.{◌≡◌, ◌+◌, ◌≤◌, length};
ghost use Rattle.lay.specs.Bytes.{put};
ghost use Rattle.listed.specs.Decimals.{decimal_text, value_text};

use lay::put::put_text;

// The number n at o; answers where it ends.
pub fn put_decimal(out: &mut [u8], o: usize, n: u64) -> usize
    requires { o + 20 ≤ length out.old }
    ensures { (result ≡ o + length (decimal_text n)) × (out.new ≡ put out.old o (decimal_text n)) }
{
    let mut digits = [0u8; 20];
    let k = io::decimal(n, &mut digits);
    put_text(out, o, &digits[..k]);
    o + k
}

// The value v at o, the minus sign first; answers where it ends. (By hand: std prints to a stream, and the text is proved of the bytes.)
pub fn put_value(out: &mut [u8], o: usize, v: i64) -> usize
    requires { o + 21 ≤ length out.old }
    ensures { (result ≡ o + length (value_text v)) × (out.new ≡ put out.old o (value_text v)) }
{
    if v < 0 {
        out[o] = b'-';
        return put_decimal(out, o + 1, v.unsigned_abs());
    }
    put_decimal(out, o, v.unsigned_abs())
}
