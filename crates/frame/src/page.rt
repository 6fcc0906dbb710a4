// A page of reads: the table is checked and the frame judged once, then each request is read by what they said.
ghost use Rattle.std.specs.Prelude.{◌≡◌, List, ℕ};
ghost use Rattle.framing.specs.Reading.{read_of};
ghost use Rattle.framing.specs.Outcomes.{outcome_of};
ghost use Rattle.frame.specs.Page.{PageOf};

use super::fit::fit_of;
use super::found::Page;
use super::read::read_numbered;
use framing::page::Outcome;
use framing::read::Reading;
use rules::bases::based;
use table::check::opening;
use table::reason::{Reason, answer_number};

// Nothing where the bytes are no table.
pub fn page_of<'t>(t: &'t [u8], words: &'t [u16]) -> Option<Page<'t>>
    ensures { PageOf t.now words.now result }
{
    let r = opening(t)?;
    let table = based(&r);
    let fit = fit_of(&table, words);
    Some(Page { table, words, fit })
}

// A reading in numbers.
#[tactic(auto, unfolding(framing::specs::Outcomes::outcome_of, framing::specs::Reading::read_number))]
pub fn outcome_of(reading: Result<Reading, Reason>) -> Outcome
    ensures { result ≡ outcome_of reading }
{
    let number = answer_number(&reading);
    match reading {
        Ok(Reading::Sample { raw, width, value }) => Outcome {
            number,
            kind: 1,
            width,
            raw,
            value,
        },
        Ok(Reading::OverlapDiffers { raw, width, value }) => Outcome {
            number,
            kind: 2,
            width,
            raw,
            value,
        },
        Err(_) => Outcome {
            number,
            kind: 0,
            width: 0,
            raw: 0,
            value: 0,
        },
    }
}

// What a single read of these numbers answers, without asking the table and the frame again.
fn read_by(page: &Option<Page>, parameter: u32, sample: u32) -> Result<Reading, Reason>
    ensures { (t w : List ℕ) → PageOf t w page.now → result ≡ read_of t w parameter sample }
{
    match page {
        Some(p) => read_numbered(&p.table, p.words, p.fit, parameter, sample),
        None => Err(Reason::NoTable),
    }
}

// The same in numbers.
pub fn outcome_by(page: &Option<Page>, parameter: u32, sample: u32) -> Outcome
    ensures { (t w : List ℕ) → PageOf t w page.now → result ≡ outcome_of (read_of t w parameter sample) }
{
    outcome_of(read_by(page, parameter, sample))
}
