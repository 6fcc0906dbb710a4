// The lines: numbers parted by spaces, put together by crate listed.
ghost use Rattle.std.specs.Prelude.{◌+◌, ◌*◌, ◌≤◌, length};

use intake::say::text;
use listed::numbers::put_value;
use listed::rows::put_field;

// Enough for the longest: five numbers and a value, each with the byte after it.
const LINE: usize = 127;

// A number and the byte after it at o; answers where they end, as all of these do.
fn put(out: &mut [u8; LINE], o: usize, n: u64, after: u8) -> usize
    requires { o ≤ 106 }
    ensures { (o ≤ result) × (result ≤ o + 21) }
{
    put_field(out, o, n, after)
}

// The same for a value, its minus sign first.
fn put_signed(out: &mut [u8; LINE], o: usize, v: i64, after: u8) -> usize
    requires { o ≤ 105 }
    ensures { (o ≤ result) × (result ≤ o + 22) }
{
    let e = put_value(out, o, v);
    out[e] = after;
    e + 1
}

// The numbers, each with a space after it.
fn put_numbers(out: &mut [u8; LINE], numbers: &[u64]) -> usize
    requires { length numbers.now ≤ 5 }
    ensures { result ≤ 21 * length numbers.now }
{
    let mut end = 0;
    for n in numbers {
        end = put(out, end, *n, b' ');
    }
    end
}

// A line of numbers, the last one behind the others.
pub fn line(rt: &HostRuntime, numbers: &[u64], last: u64)
    requires { length numbers.now ≤ 5 }
{
    let mut out = [0u8; LINE];
    let end = put_numbers(&mut out, numbers);
    let end = put(&mut out, end, last, b'\n');
    text(rt, &out[..end]);
}

// The same with a value at its end.
pub fn value_line(rt: &HostRuntime, numbers: &[u64], value: i64)
    requires { length numbers.now ≤ 5 }
{
    let mut out = [0u8; LINE];
    let end = put_numbers(&mut out, numbers);
    let end = put_signed(&mut out, end, value, b'\n');
    text(rt, &out[..end]);
}
