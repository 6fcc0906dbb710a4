// All samples of a frame by a table that is opened once: what speed/ compares with plain C.
#![tactic(auto)]

ghost use Rattle.std.specs.Prelude.{◌≤◌, ◌<◌, length};
ghost use Rattle.model.specs.Stored.{parameters_in, sample_count_in};

use frame::fit::fit_of;
use frame::read::sample_in;
use frame::sized::Frame;
use framing::read::Reading;
use rules::based::BasedTable;
use rules::bases::based;
use rules::ruled::RuledTable;
use table::check::opening;

// Sample j of parameter i, both counted from 0.
fn value_in(f: &Frame, i: usize, j: usize) -> i64
    requires i_bound { i < parameters_in f.now.based.now.ruled.declared.table.bytes.now }
    requires j_bound { j < sample_count_in f.now.based.now.ruled.declared.table.bytes.now i }
{
    match sample_in(f, i, j) {
        Reading::Sample { value, .. } | Reading::OverlapDiffers { value, .. } => value,
    }
}

// The samples of parameter i, as far as there is room; answers how many.
fn parameter_values(f: &Frame, i: usize, values: &mut [i64]) -> usize
    requires i_bound { i < parameters_in f.now.based.now.ruled.declared.table.bytes.now }
    ensures { result ≤ length values.old }
{
    let count = f
        .based
        .ruled
        .declared
        .table
        .parameter_at(i)
        .count
        .min(values.len());
    for (j, value) in values[..count].iter_mut().enumerate() {
        *value = value_in(f, i, j);
    }
    count
}

// The samples of every parameter, one after the other.
fn all_values(f: &Frame, values: &mut [i64]) -> usize {
    let mut at = 0;
    for i in 0..f.based.ruled.declared.table.opened.counts.parameters {
        at += parameter_values(f, i, &mut values[at..]);
    }
    at
}

// A frame, with its words judged; none of its samples where it is refused.
#[tactic(auto, using(framing::proofs::WantCases::fits_long))]
fn frame_values(b: &BasedTable, words: &[u16], values: &mut [i64]) -> usize {
    match fit_of(b, words) {
        Ok(_) => all_values(&Frame { based: b, words }, values),
        Err(_) => 0,
    }
}

// The frame so many times over; answers how many samples it has. (A function of its own: where it stands behind the check, the
// table's memory is cleared first, by a call that the archive is not to need.)
fn repeated(r: &RuledTable, words: &[u16], values: &mut [i64], times: u32) -> usize {
    let b = based(r);
    let mut count = 0;
    for _ in 0..times {
        count = frame_values(&b, words, values);
    }
    count
}

// The same after one check; none where table or frame is refused.
#[unsafe(no_mangle)]
pub extern "C" fn speed_read_all(
    table: &[u8],
    words: &[u16],
    values: &mut [i64],
    times: u32,
) -> usize {
    match opening(table) {
        Some(r) => repeated(&r, words, values, times),
        None => 0,
    }
}
