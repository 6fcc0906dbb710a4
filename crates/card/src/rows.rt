// Bits that a frame must have, as rows in fixed memory. (Not sample's `Components`: a row has what it must be, and its bounds.)
ghost use Rattle.std.specs.Prelude.{◌≤◌};
ghost use Rattle.model.specs.Forms.{sheet_limits};
ghost use Rattle.card.specs.Promise.{most_run_at, most_rows};

use stream::bits_at;

// How many rows there is room for.
pub const ROWS: usize = 64;

// Where bits stand, counted from the frame's first bit; how many; and the number that they must be.
#[derive(Clone, Copy)]
pub struct Row {
    pub at: usize,
    pub width: u32,
    pub want: u64,
    pub ghost near: { at ≤ most_run_at },
    pub ghost narrow: { width ≤ sheet_limits.bits },
}

impl Row {
    ghost use Rattle.std.specs.Prelude.{◌≡◌, ◌*◌};
    ghost use Rattle.carding.specs.Answer.{longest_stream};
    ghost use Rattle.card.specs.Sieve.{row_holds};

    // Whether they are, in the frame at p.
    #[tactic(auto, unfolding(crate::specs::Sieve::row_holds))]
    pub fn holds(&self, stream: &[u8], p: usize) -> bool
        requires p_bound { p ≤ 8 * longest_stream }
        ensures { result ≡ row_holds stream.now p self.now }
    {
        bits_at(stream, p + self.at, self.width) == self.want
    }
}

// The first count of the list.
#[derive(Clone, Copy)]
pub struct Sieve {
    pub list: [Row; ROWS],
    pub count: usize,
    pub ghost few: { count ≤ most_rows },
}

impl Sieve {
    ghost use Rattle.std.specs.Prelude.{◌≡◌};
    ghost use Rattle.card.specs.Sieve.{With, rows_of};

    pub fn none() -> Sieve
        ensures { result.count ≡ 0 }
    {
        let nothing = Row {
            at: 0,
            width: 0,
            want: 0,
        };
        Sieve {
            list: [nothing; ROWS],
            count: 0,
        }
    }

    pub fn rows(&self) -> &[Row]
        ensures { result.now ≡ rows_of self.now }
    {
        &self.list[..self.count]
    }

    // One more row, if there is room: the sieve may let a position pass, never keep back a frame.
    pub fn add(&mut self, row: Row)
        ensures { With (rows_of self.old) row (rows_of self.new) }
    {
        if self.count < ROWS {
            self.list[self.count] = row;
            self.count += 1;
        }
    }

    // The same of a sieve that is handed on.
    pub fn with(mut self, row: Row) -> Sieve
        ensures { With (rows_of self) row (rows_of result) }
    {
        self.add(row);
        self
    }
}
