// A page of reads from one frame.
ghost use Rattle.ffi.specs.Promises.{PagesOut};

use bench::pages::read_page;
use framing::page::{Outcome, Paged, Request};

// Each result is what orb_read answers for its request; nothing is written where the page itself is refused.
pub fn orb_page(table: &[u8], words: &[u16], requests: &[Request], results: &mut [Outcome]) -> Paged
    ensures { PagesOut table.now words.now requests.now results.old result results.new }
{
    read_page(table, words, requests, results)
}
