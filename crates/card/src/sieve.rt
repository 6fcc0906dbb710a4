// A sieve for the search: bits that a frame must have, prepared once, so that most positions cost a few instructions.
ghost use Rattle.std.specs.Prelude.{◌≡◌, ◌*◌, ◌≤◌, ◌<◌};
ghost use Rattle.model.specs.Stored.{parameters_in};
ghost use Rattle.model.specs.View.{view};
ghost use Rattle.carding.specs.Answer.{longest_stream};
ghost use Rattle.carding.specs.Search.{agrees_at};
ghost use Rattle.card.specs.Sieve.{SieveOf, sifts_at, rows_of};

use super::agree::agrees;
use super::rows::{Row, Sieve};
use super::spanned::SpannedTable;
use super::spans::run_at;
use stored::flags::has_identifier;

// The rows of parameter i, if it is an identifier: its value's bits, component by component. (The sieve is lent: handed on by value
// it would stand in the stack once for each step.)
#[tactic(auto, using(crate::proofs::Runs::place_narrow))]
fn sift_more(s: &SpannedTable, i: usize, sieve: &mut Sieve)
    requires i_bound { i < parameters_in s.now.ruled.declared.table.bytes.now }
    requires sieve_of { SieveOf s.now.ruled.declared.table.bytes.now (rows_of sieve.old) }
    ensures { SieveOf s.now.ruled.declared.table.bytes.now (rows_of sieve.new) }
{
    let e = s.ruled.declared.table.parameter_at(i);
    if !has_identifier(e.flags) {
        return;
    }
    let m = s.ruled.declared.table.sample_at(e.first);
    let v = e.value as u64;
    let mut at: u32 = 0;
    for k in 0..m.count {
        let c = run_at(&s.ruled.declared, m.first + k, &s.begins);
        sieve.add(Row {
            at: c.at,
            width: c.bits,
            want: bits::field_of(v, at, c.bits),
        });
        at += c.given;
    }
}

pub fn sieve_of(s: &SpannedTable) -> Sieve
    ensures { SieveOf s.now.ruled.declared.table.bytes.now (rows_of result) }
{
    let mut sieve = Sieve::none();
    for i in 0..s.ruled.declared.table.opened.counts.parameters {
        sift_more(s, i, &mut sieve);
    }
    sieve
}

// Whether every row holds in the frame at p: the search's inner loop, left at the first row that does not.
fn sifts(stream: &[u8], p: usize, sieve: &Sieve) -> bool
    requires p_bound { p ≤ 8 * longest_stream }
    ensures { result ≡ sifts_at stream.now p (rows_of sieve.now) }
{
    sieve.rows().iter().all(|row| row.holds(stream, p))
}

// Every identifier agrees in the frame at p: all are looked at only where the sieve lets p pass.
pub fn agrees_sifted(s: &SpannedTable, stream: &[u8], p: usize, sieve: &Sieve) -> bool
    requires p_bound { p ≤ 8 * longest_stream }
    requires sieve_of { SieveOf s.now.ruled.declared.table.bytes.now (rows_of sieve.now) }
    ensures { result ≡ agrees_at (view s.now.ruled.declared.table.bytes.now) stream.now p }
{
    sifts(stream, p, sieve) && agrees(s, stream, p)
}
