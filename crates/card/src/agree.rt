// Record identifiers, compared where they stand in a stream.
// Sample j of all: its law stands with its parameter's, and is asked here.
ghost use Rattle.std.specs.Prelude.{◌≡◌, ◌*◌, ◌≤◌, ◌<◌};
ghost use Rattle.model.specs.Forms.{limits_in};
ghost use Rattle.model.specs.Samples.{holds};
ghost use Rattle.model.specs.Stored.{parameters_in};
ghost use Rattle.model.specs.View.{sample_at, view};
ghost use Rattle.model.specs.Facts.{SampleHere};
ghost use Rattle.model.specs.Meaning.{SampleLaw};
ghost use Rattle.rules.specs.Ruled.{subframes_of};
ghost use Rattle.carding.specs.Layout.{frame_at};
ghost use Rattle.carding.specs.Answer.{longest_stream};
ghost use Rattle.carding.specs.Search.{reads_at, agrees_at};

use super::spanned::SpannedTable;
use super::spans::run_at;
use stored::flags::has_identifier;
use stream::bits_at;

// Every component of sample j of all is, in the frame at p, its bits of v.
#[tactic(auto, using(crate::proofs::Runs::place_narrow, crate::proofs::Runs::along_none))]
fn holds_in(s: &SpannedTable, stream: &[u8], p: usize, j: usize, v: u64) -> bool
    requires sample_here { SampleHere s.now.ruled.declared.table.bytes.now j }
    requires sample_law { SampleLaw (limits_in s.now.ruled.declared.table.bytes.now) (subframes_of s.now.ruled.declared.table.bytes.now) (sample_at s.now.ruled.declared.table.bytes.now j) }
    requires p_bound { p ≤ 8 * longest_stream }
    ensures { result ≡ holds (subframes_of s.now.ruled.declared.table.bytes.now) (frame_at (view s.now.ruled.declared.table.bytes.now) stream.now p) (sample_at s.now.ruled.declared.table.bytes.now j) v }
{
    let m = s.ruled.declared.table.sample_at(j);
    let mut at: u32 = 0;
    for k in 0..m.count {
        let c = run_at(&s.ruled.declared, m.first + k, &s.begins);
        if bits_at(stream, p + c.at, c.bits) != bits::field_of(v, at, c.bits) {
            return false;
        }
        at += c.given;
    }
    true
}

// Parameter i, if it is an identifier, is its value in the frame at p.
fn reads_at(s: &SpannedTable, stream: &[u8], p: usize, i: usize) -> bool
    requires i_bound { i < parameters_in s.now.ruled.declared.table.bytes.now }
    requires p_bound { p ≤ 8 * longest_stream }
    ensures { result ≡ reads_at (view s.now.ruled.declared.table.bytes.now) (frame_at (view s.now.ruled.declared.table.bytes.now) stream.now p) i }
{
    let e = s.ruled.declared.table.parameter_at(i);
    if !has_identifier(e.flags) {
        return true;
    }
    holds_in(s, stream, p, e.first, e.value as u64)
}

// Every identifier agrees in the frame at p.
#[tactic(auto, using(carding::proofs::Agreeing::agrees_all))]
pub fn agrees(s: &SpannedTable, stream: &[u8], p: usize) -> bool
    requires p_bound { p ≤ 8 * longest_stream }
    ensures { result ≡ agrees_at (view s.now.ruled.declared.table.bytes.now) stream.now p }
{
    for i in 0..s.ruled.declared.table.opened.counts.parameters {
        if !reads_at(s, stream, p, i) {
            return false;
        }
    }
    true
}
