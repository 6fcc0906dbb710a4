// A page of reads from one frame: the table is checked and the frame judged once for all of them.
ghost use Rattle.bench.specs.Promises.{Pages};

use frame::page::{outcome_by, page_of};
use framing::page::{Outcome, Paged, REQUESTS, Request};

// Each result is what a read of its request answers, its refusal included, and results beyond the requests stay. 29 for more than
// 256 requests, then 28 for fewer results than requests, and then nothing is written.
pub fn read_page(
    table: &[u8],
    words: &[u16],
    requests: &[Request],
    results: &mut [Outcome],
) -> Paged
    ensures { Pages table.now words.now requests.now results.old result results.new }
{
    if requests.len() > REQUESTS {
        return Paged {
            number: 29,
            count: 0,
        };
    }
    if results.len() < requests.len() {
        return Paged {
            number: 28,
            count: 0,
        };
    }
    let page = page_of(table, words);
    // Not by `iter_mut().zip(requests)`: of what is written through it a proof knows the length alone.
    for (i, request) in requests.iter().enumerate() {
        results[i] = outcome_by(&page, request.parameter, request.sample);
    }
    Paged {
        number: 0,
        count: requests.len() as u32,
    }
}
