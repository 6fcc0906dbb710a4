// The first position in a stream at which a whole frame fits and every identifier agrees.
ghost use Rattle.std.specs.Prelude.{◌≡◌, ◌≤◌, ◌<◌, length};
ghost use Rattle.model.specs.View.{view};
ghost use Rattle.carding.specs.Layout.{frame_bits};
ghost use Rattle.carding.specs.Answer.{longest_stream};
ghost use Rattle.card.specs.Promise.{most_frame_bits, first_found};
ghost use Rattle.card.specs.Sieve.{NextSifted, rows_of};

use super::rows::Sieve;
use super::sieve::{agrees_sifted, sieve_of};
use super::spanned::SpannedTable;
use stream::skip::skip_unlike;

// The next position that the sieve's first row does not keep back: most are passed over here, many with each load.
fn next_sifted(stream: &[u8], p: usize, sieve: &Sieve) -> usize
    requires stream_len_bound { (length stream.now ≤ longest_stream) × (p ≤ 4294967296) }
    ensures { NextSifted stream.now p (rows_of sieve.now) result }
{
    match sieve.rows().first() {
        Some(row) => skip_unlike(stream, p + row.at, row.width, row.want) - row.at,
        None => p,
    }
}

// The first at or after `from`. (A while: the position jumps.)
#[tactic(auto, using(crate::proofs::Searching::walk_found))]
pub fn position_from(s: &SpannedTable, stream: &[u8], from: usize, bits: usize) -> Option<usize>
    requires bits_value { (bits ≡ frame_bits (view s.now.ruled.declared.table.bytes.now)) × (bits ≤ most_frame_bits) }
    requires stream_len_bound { (length stream.now ≤ longest_stream) × (from < 4294967296) }
    ensures { result ≡ first_found (view s.now.ruled.declared.table.bytes.now) stream.now from }
{
    let sieve = sieve_of(s);
    let end = 8 * stream.len();
    let mut p = next_sifted(stream, from, &sieve);
    while p + bits <= end {
        if agrees_sifted(s, stream, p, &sieve) {
            return Some(p);
        }
        p = next_sifted(stream, p + 1, &sieve);
    }
    None
}
