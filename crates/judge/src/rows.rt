// What is kept of the record pairs and of the parameters. Each line stores at the next free row, and the counts say whether
// it stays: so there is no branch, and one row more than the limit.
ghost use Rattle.std.specs.Prelude.{◌≡◌, ◌*◌, ◌≤◌};
ghost use Rattle.model.specs.Forms.{sheet_limits};
ghost use Rattle.judge.specs.Rows.{no_rows, kept_in, rows_set};

use crate::kept::{bits_in, is_good, words_in};
use crate::names::{Places, no_places};
use crate::turn::State;
use lineforms::due::Form;
use model::limits::{PARAMETERS, SUBFRAMES};

pub const PAIRS: usize = SUBFRAMES + 1;

pub const ROWS: usize = PARAMETERS + 1;

// Of a parameter: where its texts stand; its subframe and its value; the line of its `PARAMETER:` word; whether it is an
// identifier, and whether it alone is in order. The value stands beside the flag, as in a table's entry: 0 where there is none.
#[derive(Clone, Copy)]
pub struct Kept {
    pub places: Places,
    pub home: u64,
    pub value: u64,
    pub opened_at: u32,
    pub identifier: bool,
    pub good: bool,
}

// Words and bits stand in a list each: lineforms' definition `component_fields` takes two lists. The memory is fixed:
// how many rows are filled stands in the tally.
#[derive(Drop)]
pub struct Rows {
    pub words: [u64; PAIRS],
    pub bits: [u64; PAIRS],
    pub kept: [Kept; ROWS],
}

// The open parameter.
fn kept_of(t: &State) -> Kept
    ensures { result ≡ kept_in t.now }
{
    Kept {
        places: t.here,
        identifier: t.counts.identifier,
        good: is_good(t.counts, t.sample),
        home: t.sample.lies,
        value: t.counts.value,
        opened_at: t.opened_at,
    }
}

impl Rows {
    pub fn none() -> Rows
        ensures { result ≡ no_rows }
    {
        let nothing = Kept {
            places: no_places(),
            identifier: false,
            good: false,
            home: 0,
            value: 0,
            opened_at: 0,
        };
        Rows {
            words: [0; PAIRS],
            bits: [0; PAIRS],
            kept: [nothing; ROWS],
        }
    }

    // The line's pair and the open parameter.
    pub fn keep(&mut self, form: Form, line: &[u8], t: &State)
        requires { (t.now.counts.pairs ≤ sheet_limits.subframes) × (t.now.counts.parameters ≤ sheet_limits.parameters) }
        ensures { self.new ≡ rows_set form line.now t.now self.old }
    {
        let pair = t.counts.pairs;
        self.words[pair] = words_in(form, line);
        self.bits[pair] = bits_in(form, line);
        self.kept[t.counts.parameters] = kept_of(t);
    }
}
