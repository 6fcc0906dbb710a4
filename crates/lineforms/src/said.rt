// What a line says, once its tests pass.
ghost use Rattle.std.specs.Prelude.{◌≡◌};
ghost use Rattle.lineforms.specs.LineFields.{subframe_in};
ghost use Rattle.lineforms.specs.Said.{subframes_in, sequential_in, pair_in, identifier_in, part_in, Modest, time_in, signed_in, value_in};

use model::limits::{BITS, BLANK_MARGIN, MARGIN, SUBFRAMES, VALUE, WORDS};
use ratio::Ratio;
use spell::answers::Bits;
use spell::decimals::decimal;
use spell::integers::{integer, margin};
use spell::ranges::component_bits;
use spell::seconds::seconds;
use spell::truths::says_true;
use text::field::field_of;

// What a record pair declares.
#[derive(Clone, Copy)]
pub struct Pair {
    pub bits: u64,
    pub words: u64,
    pub leading: u64,
    pub trailing: u64,
    pub numerator: u64,
    pub denominator: u64,
}

// What a component line names.
#[derive(Clone, Copy)]
pub struct Part {
    pub subframe: u64,
    pub word: u64,
    pub low: u64,
    pub high: u64,
    pub overlap: u64,
}

// A field that is misspelt says 0 here: the definitions say something of every line, and the line's tests have refused this one.

// The header line: how many subframes, and whether sequential.
pub fn subframes_in(line: &[u8]) -> u64
    ensures { result ≡ subframes_in line.now }
{
    integer(field_of(line, 11), 6, 1, SUBFRAMES as u64).unwrap_or(0)
}

pub fn sequential_in(line: &[u8]) -> bool
    ensures { result ≡ sequential_in line.now }
{
    says_true(field_of(line, 8))
}

pub fn pair_in(line: &[u8]) -> Pair
    ensures { result ≡ pair_in line.now }
{
    let x = seconds(field_of(line, 4)).unwrap_or(Ratio {
        numerator: 0,
        denominator: 0,
    });
    Pair {
        bits: integer(field_of(line, 0), 6, 1, BITS as u64).unwrap_or(0),
        words: integer(field_of(line, 1), 6, 1, WORDS as u64).unwrap_or(0),
        leading: margin(field_of(line, 2), MARGIN as u64, BLANK_MARGIN as u64).unwrap_or(0),
        trailing: margin(field_of(line, 3), MARGIN as u64, BLANK_MARGIN as u64).unwrap_or(0),
        numerator: x.numerator,
        denominator: x.denominator,
    }
}

// The 7-field line: whether the parameter is a record identifier.
pub fn identifier_in(line: &[u8]) -> bool
    ensures { result ≡ identifier_in line.now }
{
    says_true(field_of(line, 3))
}

// The subframe that a component line names.
pub fn subframe_in(line: &[u8]) -> u64
    ensures { result ≡ subframe_in line.now }
{
    integer(field_of(line, 0), 6, 0, 999999).unwrap_or(0)
}

#[tactic(auto, using(crate::proofs::Modesty::part_modest))]
pub fn part_in(line: &[u8]) -> Part
    ensures { (result ≡ part_in line.now) × Modest result }
{
    let x = component_bits(field_of(line, 3), 999999).unwrap_or(Bits { low: 0, high: 0 });
    Part {
        subframe: subframe_in(line),
        word: integer(field_of(line, 1), 6, 0, 999999).unwrap_or(0),
        low: x.low,
        high: x.high,
        overlap: integer(field_of(line, 2), 6, 0, 999999).unwrap_or(0),
    }
}

// The time line, in millionths.
pub fn time_in(line: &[u8]) -> u64
    ensures { result ≡ time_in line.now }
{
    decimal(field_of(line, 0), 3).unwrap_or(0)
}

// The 5-field line: whether signed.
pub fn signed_in(line: &[u8]) -> bool
    ensures { result ≡ signed_in line.now }
{
    says_true(field_of(line, 0))
}

// The 4-field line of a record identifier: its value.
pub fn value_in(line: &[u8]) -> u64
    ensures { result ≡ value_in line.now }
{
    integer(field_of(line, 0), 10, 0, VALUE as u64).unwrap_or(0)
}
