// 14: the open sample's components side by side, and what is kept of the open parameter's first sample.
ghost use Rattle.std.specs.Prelude.{◌≡◌, true, cond, ◌&&◌, ◌-◌, ◌<◌, ◌≤◌, eqb};
ghost use Rattle.lineforms.specs.Said.{Modest};
ghost use Rattle.model.specs.Forms.{sheet_limits};
ghost use Rattle.judge.specs.Sampling.{spot_of, bits_in, joined_in, width_test_in, Widened, Timed, Opened, sample_in, Apt, After};

use crate::tests::refused_if;
use lineforms::due::Form;
use lineforms::said::{Part, part_in};
use model::limits::{WIDTH, WORDS};
use sample::clash::names_twice;
use sample::component::{Component, Components};
use text::refusal::Refusal;

// The open sample: the bits that its components give, the last one's overlap, the subframe of its first component, whether all lie
// there. The first sample: its width, subframe and whether all lie there.
// What there is not yet is 0 and no rule looks at it: so the definitions `Opened` and `Widened` say.
#[derive(Clone, Copy)]
pub struct Sampling {
    pub spots: Components,
    pub width: u64,
    pub lapped: u64,
    pub home: u64,
    pub alone: bool,
    pub first: u64,
    pub lies: u64,
    pub within: bool,
}

// A word is less than this.
const WORD_SPAN: u64 = WORDS as u64 + 1;

// Subframe and word as one number. That a part is modest is no field of it: the definition that reads a line makes parts.
fn spot_of(p: Part) -> Component
    requires { Modest p }
    ensures { result ≡ spot_of p }
{
    Component {
        word: (p.subframe * WORD_SPAN + p.word) as usize,
        low: p.low as u32,
        high: p.high as u32,
    }
}

// A bit twice, a width above its limit, or an overlap above its own, with one component more.
fn joined_judged(g: Sampling, p: Part) -> Result<(), Refusal>
    requires { (g.spots.count < sheet_limits.components_each) × (g.width ≤ sheet_limits.width) × Modest p }
    ensures { result ≡ joined_in g p }
{
    let bits = p.high + 1 - p.low;
    let wrong = names_twice(g.spots.with(spot_of(p)))
        || (WIDTH as u64) < g.width + bits
        || bits <= p.overlap
        || bits < g.lapped;
    refused_if(wrong, Refusal::BadSample)
}

// The last component overlaps none, and the width is the first sample's, where this is not the first.
fn width_judged(g: Sampling, own: usize) -> Result<(), Refusal>
    ensures { result ≡ width_test_in own g.lapped g.width g.first }
{
    let wrong = g.lapped != 0 || g.width < 1 || own != 0 && g.width != g.first;
    refused_if(wrong, Refusal::BadSample)
}

// Nothing of any sample.
pub fn no_sample() -> Sampling
    ensures { Opened result }
{
    Sampling {
        spots: Components::none(),
        width: 0,
        lapped: 0,
        home: 0,
        alone: true,
        first: 0,
        lies: 0,
        within: true,
    }
}

fn home_of(n: usize, s: u64, home: u64) -> u64
    ensures { result ≡ cond (eqb n 0) s home }
{
    if n == 0 { s } else { home }
}

fn alone_of(n: usize, s: u64, home: u64, alone: bool) -> bool
    ensures { result ≡ cond (eqb n 0) true (alone && eqb s home) }
{
    n == 0 || alone && s == home
}

// The bits that a component gives to its sample.
fn given_by(p: Part) -> u64
    requires { Modest p }
    ensures { result ≡ bits_in p - p.overlap }
{
    (p.high + 1 - p.low).saturating_sub(p.overlap)
}

// One component more, n before it.
fn with_part(g: Sampling, p: Part, n: usize) -> Sampling
    requires { (g.spots.count < sheet_limits.components_each) × (g.width ≤ sheet_limits.width) × Modest p }
    ensures { Widened g p n result }
{
    Sampling {
        spots: g.spots.with(spot_of(p)),
        width: g.width + given_by(p),
        lapped: p.overlap,
        home: home_of(n, p.subframe, g.home),
        alone: alone_of(n, p.subframe, g.home, g.alone),
        ..g
    }
}

// The open sample is closed, own samples before it.
pub fn timed(g: Sampling, own: usize) -> Sampling
    ensures { Timed g own result }
{
    let none = no_sample();
    if own == 0 {
        Sampling {
            first: g.width,
            lies: g.home,
            within: g.alone,
            ..none
        }
    } else {
        Sampling {
            first: g.first,
            lies: g.lies,
            within: g.within,
            ..none
        }
    }
}

// 14 of a line, by what it turned out to be.
pub fn sample_judged(form: Form, line: &[u8], g: Sampling, own: usize) -> Result<(), Refusal>
    requires { Apt form g }
    ensures { result ≡ sample_in form line.now g own }
{
    match form {
        Form::OpeningComponent | Form::ComponentLine => joined_judged(g, part_in(line)),
        Form::TimeLine => width_judged(g, own),
        _ => Ok(()),
    }
}

// What is kept after a line that passed, parts components and own samples before it.
pub fn sampling_after(form: Form, line: &[u8], g: Sampling, parts: usize, own: usize) -> Sampling
    requires { Apt form g }
    ensures { After form line.now g parts own result }
{
    match form {
        Form::NameLine | Form::ParameterEnd => no_sample(),
        Form::OpeningComponent | Form::ComponentLine => with_part(g, part_in(line), parts),
        Form::TimeLine => timed(g, own),
        _ => g,
    }
}
