// Kind 9: a page of reads.
ghost use Rattle.std.specs.Prelude.{◌≤◌, length};

use crate::cursor::Cursor;
use crate::say::line;
use crate::sum::Sum;
use bench::pages::read_page;
use framing::page::{Outcome, Paged, Request};

// One request more than a page may have: with yet more it is refused alike, and writes nothing.
const KEPT: usize = 257;

const SLOTS: usize = 2000;

// The requests that the bytes spell, two numbers each, at the front of the lent ones, as far as there is room.
fn requests_of<'r>(bytes: &[u8], lent: &'r mut [Request; KEPT]) -> &'r [Request]
    ensures { length result.now ≤ 257 }
{
    let mut c = Cursor { rest: bytes };
    for (n, slot) in lent.iter_mut().enumerate() {
        let Some(request) = c.request() else {
            return &lent[..n];
        };
        *slot = request;
    }
    lent
}

fn of_results(results: &[Outcome]) -> u64 {
    results
        .iter()
        .fold(Sum::new(), |sum, outcome| sum.outcome(*outcome))
        .value
}

// None where more results are lent than there is room for.
pub fn page_line(
    rt: &HostRuntime,
    table: &[u8],
    words: &[u16],
    asked: &[u8],
    lent: usize,
) -> Option<()> {
    let mut requests = [Request {
        parameter: 0,
        sample: 0,
    }; KEPT];
    let mut results = [Outcome {
        number: 42405,
        kind: 42405,
        width: 42405,
        raw: 42405,
        value: 42405,
    }; SLOTS];
    let lent = results.get_mut(..lent)?;
    let Paged { number, count } = read_page(table, words, requests_of(asked, &mut requests), lent);
    let sum = of_results(lent);
    line(rt, &[9, number.into(), count.into()], sum);
    Some(())
}
