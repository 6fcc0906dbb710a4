// Making a location table: the sheet is judged first, and a byte is written only where it is accepted and its table fits.
ghost use Rattle.std.specs.Prelude.{◌≡◌, length};
ghost use Rattle.gather.specs.Ruling.{judge_of};
ghost use Rattle.laying.specs.Parts.{copies};
ghost use Rattle.maker.specs.Entries.{counts_of};
ghost use Rattle.maker.specs.Made.{made_of, left_of, made_number};

use crate::entries::put_header;
use crate::walk::walk;
use judge::tally::Tally;
use judge::walk::{Rejected, judge};
use stored::forms::NEWEST;
use stored::items::{Counts, starts_of};
use text::refusal::{Refusal, refusal_number};

fn counts_of(x: Tally) -> Counts
    ensures { result ≡ counts_of x }
{
    Counts {
        subframes: x.declared,
        parameters: x.parameters,
        samples: x.samples,
        components: x.components,
    }
}

// How many times each record pair is written: a single one stands for every subframe.
fn copies_of(x: Tally) -> usize
    ensures { result ≡ copies x.pairs x.declared }
{
    if x.pairs == 1 { x.declared } else { 1 }
}

// The sheet's table at the front of the lent bytes.
// The answer is its length, or why there is none and at which line; line 0 where no line is to be named.
#[tactic(auto, using(crate::proofs::Makings::leaves_refused))]
pub fn make(sheet: &[u8], table: &mut [u8]) -> Result<usize, Rejected>
    ensures { (result ≡ made_of (judge_of sheet.now) (length table.old)) × (table.new ≡ left_of (judge_of sheet.now) table.old) }
{
    let x = judge(sheet)?;
    let n = counts_of(x);
    let a = starts_of(NEWEST, n);
    let total = a.text + x.text;
    if table.len() < total {
        return Err(Rejected {
            refusal: Refusal::TableTooSmall,
            line: 0,
        });
    }
    walk(sheet, a, copies_of(x), table);
    put_header(table, n, a, total, x.sequential);
    Ok(total)
}

// 01's number of the answer: 1 to 17, or 0 for a table. The bench's call of this name hands it out.
#[tactic(auto, unfolding(crate::specs::Made::made_number))]
pub fn make_number(m: Result<usize, Rejected>) -> u32
    ensures { result ≡ made_number m }
{
    match m {
        Ok(_) => 0,
        Err(r) => refusal_number(r.refusal),
    }
}
