// How much a sheet's lines have gathered to.
ghost use Rattle.std.specs.Prelude.{◌≡◌, cond};
ghost use Rattle.lineforms.specs.Said.{value_in};
ghost use Rattle.gather.specs.Book.{empty_book};
ghost use Rattle.judge.specs.Counts.{tally_of, counted_of, declared_tally, paired_tally, named_tally, parted_tally, timed_tally, signed_tally, ranged_tally, closed_tally, most_count, Small};

use lineforms::due::Form;
use lineforms::said::{identifier_in, sequential_in, signed_in, subframes_in, value_in};
use text::field::field_of;

// samples and components in all, with the open parameter's and the open sample's; own are the open parameter's samples,
// parts the open sample's components, text the whole parameters' bytes of text; then the open parameter.
// That it is small is no field of it: the definitions make tallies, and each would have to prove it on the way.
#[derive(Clone, Copy)]
pub struct Tally {
    pub declared: usize,
    pub sequential: bool,
    pub pairs: usize,
    pub parameters: usize,
    pub samples: usize,
    pub own: usize,
    pub components: usize,
    pub parts: usize,
    pub text: usize,
    pub name: usize,
    pub mnemonic: usize,
    pub identification: usize,
    pub identifier: bool,
    pub signed: bool,
    pub value: u64,
}

#[tactic(auto, unfolding(crate::specs::Counts::text_of, gather::specs::Book::samples_of, gather::specs::Book::components_of, gather::specs::Book::all_components_of))]
pub fn nothing() -> Tally
    ensures { result ≡ tally_of empty_book }
{
    Tally {
        declared: 0,
        sequential: false,
        pairs: 0,
        parameters: 0,
        samples: 0,
        own: 0,
        components: 0,
        parts: 0,
        text: 0,
        name: 0,
        mnemonic: 0,
        identification: 0,
        identifier: false,
        signed: false,
        value: 0,
    }
}

// The header line says how many subframes there are, and whether they come in order.
fn declared(x: Tally, line: &[u8]) -> Tally
    ensures { result ≡ declared_tally line.now x }
{
    Tally {
        declared: subframes_in(line) as usize,
        sequential: sequential_in(line),
        ..x
    }
}

// One record pair more.
fn paired(x: Tally) -> Tally
    requires { Small x most_count }
    ensures { result ≡ paired_tally x }
{
    Tally {
        pairs: x.pairs + 1,
        ..x
    }
}

// The 7-field line opens a parameter.
fn named(x: Tally, line: &[u8]) -> Tally
    ensures { result ≡ named_tally line.now x }
{
    Tally {
        own: 0,
        name: field_of(line, 0).len(),
        mnemonic: field_of(line, 1).len(),
        identification: field_of(line, 2).len(),
        identifier: identifier_in(line),
        signed: false,
        value: 0,
        ..x
    }
}

// One component more.
fn parted(x: Tally) -> Tally
    requires { Small x most_count }
    ensures { result ≡ parted_tally x }
{
    Tally {
        components: x.components + 1,
        parts: x.parts + 1,
        ..x
    }
}

// The time line closes a sample.
fn timed(x: Tally) -> Tally
    requires { Small x most_count }
    ensures { result ≡ timed_tally x }
{
    Tally {
        samples: x.samples + 1,
        own: x.own + 1,
        parts: 0,
        ..x
    }
}

fn signed(x: Tally, line: &[u8]) -> Tally
    ensures { result ≡ signed_tally line.now x }
{
    Tally {
        signed: signed_in(line),
        ..x
    }
}

// The value of an identifier, else 0.
fn range_value(identifier: bool, line: &[u8]) -> u64
    ensures { result ≡ cond identifier (value_in line.now) 0 }
{
    if identifier { value_in(line) } else { 0 }
}

fn ranged(x: Tally, line: &[u8]) -> Tally
    ensures { result ≡ ranged_tally line.now x }
{
    Tally {
        value: range_value(x.identifier, line),
        ..x
    }
}

// The last blank line closes it.
fn closed(x: Tally) -> Tally
    requires { Small x most_count }
    ensures { result ≡ closed_tally x }
{
    Tally {
        parameters: x.parameters + 1,
        own: 0,
        text: x.text + x.name + x.mnemonic + x.identification,
        name: 0,
        mnemonic: 0,
        identification: 0,
        identifier: false,
        signed: false,
        value: 0,
        ..x
    }
}

// The counts after a line that passed.
pub fn counted(form: Form, line: &[u8], x: Tally) -> Tally
    requires { Small x most_count }
    ensures { result ≡ counted_of form line.now x }
{
    match form {
        Form::HeaderLine => declared(x, line),
        Form::RecordLine => paired(x),
        Form::NameLine => named(x, line),
        Form::OpeningComponent | Form::ComponentLine => parted(x),
        Form::TimeLine => timed(x),
        Form::SignedLine => signed(x, line),
        Form::RangeLine => ranged(x, line),
        Form::ParameterEnd => closed(x),
        _ => x,
    }
}
