// THE CODE THAT KNOWS THE FORMS: each form's layout in numbers, and its limits. A form is a number here,
// as in a table's bytes and in the definitions.
ghost use Rattle.std.specs.Prelude.{◌≡◌, true, cond, ◌+◌, ◌≤◌, leb, length};
ghost use Rattle.model.specs.Forms.{known, layout_of, limits_of, form_at, form_wide, form_in};
ghost use Rattle.stored.specs.Shapes.{header_shape, subframe_shape, parameter_shape, sample_shape, component_shape, bounds_of};

use lay::item::Place;
use model::limits::{
    BITS, COMPONENTS, COMPONENTS_EACH, DENOMINATOR, MARGIN, OVERLAP, PARAMETERS, SAMPLES,
    SAMPLES_EACH, SECONDS, SUBFRAMES, TEXT, TIME, VALUE, WIDTH, WORDS,
};

// Where the form stands, how wide it is, and where it ends: the same in every form.
pub const FORM_AT: usize = 14;

pub const FORM_WIDE: usize = 2;

pub const FORM_ENDS: usize = 16;

// New tables are written in this form.
pub const NEWEST: usize = 3;

// The header's items but for the form: the total, flags, zero bytes, where the text begins; then of each part how many entries
// it has, and where it begins.
#[derive(Clone, Copy)]
pub struct HeaderShape {
    pub size: usize,
    pub total: Place,
    pub flags: Place,
    pub zeros: Place,
    pub text: Place,
    pub subframes: Place,
    pub subframe: Place,
    pub parameters: Place,
    pub parameter: Place,
    pub samples: Place,
    pub sample: Place,
    pub components: Place,
    pub component: Place,
}

#[derive(Clone, Copy)]
pub struct SubframeShape {
    pub size: usize,
    pub bits: Place,
    pub words: Place,
    pub leading: Place,
    pub trailing: Place,
    pub numerator: Place,
    pub denominator: Place,
}

#[derive(Clone, Copy)]
pub struct ParameterShape {
    pub size: usize,
    pub name: Place,
    pub mnemonic: Place,
    pub identification: Place,
    pub flags: Place,
    pub start: Place,
    pub first: Place,
    pub count: Place,
    pub value: Place,
}

#[derive(Clone, Copy)]
pub struct SampleShape {
    pub size: usize,
    pub time: Place,
    pub first: Place,
    pub count: Place,
}

#[derive(Clone, Copy)]
pub struct ComponentShape {
    pub size: usize,
    pub subframe: Place,
    pub word: Place,
    pub low: Place,
    pub high: Place,
    pub overlap: Place,
    pub zero: Place,
}

// How much a form holds at most, and whether a margin may be unknown in it (blank).
#[derive(Clone, Copy)]
pub struct Bounds {
    pub subframes: usize,
    pub bits: usize,
    pub words: usize,
    pub margin: usize,
    pub blank: bool,
    pub parameters: usize,
    pub samples_each: usize,
    pub samples: usize,
    pub components_each: usize,
    pub components: usize,
    pub overlap: usize,
    pub width: usize,
    pub text: usize,
    pub time: usize,
    pub denominator: usize,
    pub seconds: usize,
    pub value: usize,
}

// The form that bytes name, and whether there is such a form.
pub fn form_of(t: &[u8]) -> usize
    requires { form_at + form_wide ≤ length t.now }
    ensures { result ≡ form_in t.now }
{
    lay::two_at(t, FORM_AT)
}

pub fn known_form(f: usize) -> bool
    ensures { result ≡ known f }
{
    if f < 1 {
        return false;
    }
    if NEWEST < f {
        return false;
    }
    true
}

pub fn header_shape(f: usize) -> HeaderShape
    requires { known f ≡ true }
    ensures { result ≡ header_shape (layout_of f) }
{
    HeaderShape {
        size: 36,
        total: Place { at: 0, wide: 4 },
        flags: Place { at: 12, wide: 2 },
        zeros: Place { at: 36, wide: 0 },
        text: Place { at: 32, wide: 4 },
        subframes: Place { at: 4, wide: 2 },
        subframe: Place { at: 16, wide: 4 },
        parameters: Place { at: 6, wide: 2 },
        parameter: Place { at: 20, wide: 4 },
        samples: Place { at: 8, wide: 2 },
        sample: Place { at: 24, wide: 4 },
        components: Place { at: 10, wide: 2 },
        component: Place { at: 28, wide: 4 },
    }
}

pub fn subframe_shape(f: usize) -> SubframeShape
    requires { known f ≡ true }
    ensures { result ≡ subframe_shape (layout_of f) }
{
    SubframeShape {
        size: 20,
        bits: Place { at: 0, wide: 2 },
        words: Place { at: 2, wide: 2 },
        leading: Place { at: 4, wide: 2 },
        trailing: Place { at: 6, wide: 2 },
        numerator: Place { at: 8, wide: 8 },
        denominator: Place { at: 16, wide: 4 },
    }
}

pub fn parameter_shape(f: usize) -> ParameterShape
    requires { known f ≡ true }
    ensures { result ≡ parameter_shape (layout_of f) }
{
    ParameterShape {
        size: 16,
        name: Place { at: 0, wide: 1 },
        mnemonic: Place { at: 1, wide: 1 },
        identification: Place { at: 2, wide: 1 },
        flags: Place { at: 3, wide: 1 },
        start: Place { at: 4, wide: 4 },
        first: Place { at: 8, wide: 2 },
        count: Place { at: 10, wide: 2 },
        value: Place { at: 12, wide: 4 },
    }
}

pub fn sample_shape(f: usize) -> SampleShape
    requires { known f ≡ true }
    ensures { result ≡ sample_shape (layout_of f) }
{
    SampleShape {
        size: 8,
        time: Place { at: 0, wide: 4 },
        first: Place { at: 4, wide: 2 },
        count: Place { at: 6, wide: 2 },
    }
}

pub fn component_shape(f: usize) -> ComponentShape
    requires { known f ≡ true }
    ensures { result ≡ component_shape (layout_of f) }
{
    if f < 3 {
        return ComponentShape {
            size: 6,
            subframe: Place { at: 0, wide: 2 },
            word: Place { at: 2, wide: 2 },
            low: Place { at: 4, wide: 1 },
            high: Place { at: 5, wide: 1 },
            overlap: Place { at: 6, wide: 0 },
            zero: Place { at: 6, wide: 0 },
        };
    }
    ComponentShape {
        size: 8,
        subframe: Place { at: 0, wide: 2 },
        word: Place { at: 2, wide: 2 },
        low: Place { at: 4, wide: 1 },
        high: Place { at: 5, wide: 1 },
        overlap: Place { at: 6, wide: 1 },
        zero: Place { at: 7, wide: 1 },
    }
}

fn most_overlap(f: usize) -> usize
    ensures { result ≡ cond (leb 3 f) 15 0 }
{
    if f < 3 {
        return 0;
    }
    OVERLAP
}

// All forms hold as much; form 1 has no way to say that a margin is unknown, and forms 1 and 2 none to say that bits overlap.
pub fn bounds_of(f: usize) -> Bounds
    requires { known f ≡ true }
    ensures { result ≡ bounds_of (limits_of f) }
{
    Bounds {
        subframes: SUBFRAMES,
        bits: BITS,
        words: WORDS,
        margin: MARGIN,
        blank: 2 <= f,
        parameters: PARAMETERS,
        samples_each: SAMPLES_EACH,
        samples: SAMPLES,
        components_each: COMPONENTS_EACH,
        components: COMPONENTS,
        overlap: most_overlap(f),
        width: WIDTH,
        text: TEXT,
        time: TIME,
        denominator: DENOMINATOR,
        seconds: SECONDS,
        value: VALUE,
    }
}
