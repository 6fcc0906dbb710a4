// What a field says by a spelling.
use crate::kind::Kind;
use crate::walk::{fields_text, lines_of_file};
use intake::say::{number, text};
use model::limits::{BITS, BLANK_MARGIN, MARGIN, SUBFRAMES, TEXT, VALUE, WORDS};
use ratio::Ratio;
use spell::answers::Bits;
use spell::decimals::{decimal, delay};
use spell::integers::{declared, integer, label, margin};
use spell::ranges::{component_bits, source_bits};
use spell::seconds::seconds;
use spell::texts::{must_be_empty, text_field, version};
use spell::truths::{truth, truth_or_empty};
use text::blank::trimmed;
use text::keyword::{Keyword, keyword_of};
use text::refusal::{Refusal, refusal_number};

pub fn refused(rt: &HostRuntime, r: Refusal) {
    let number = refusal_number(r);
    let _ = print!(rt; "refused {number}");
}

// What a field can say, as the output has it. (Not Display: the types are std's, or have another crate.)
trait Say {
    fn say(self, rt: &HostRuntime);
}

impl Say for () {
    fn say(self, rt: &HostRuntime) {
        text(rt, b"passes");
    }
}

impl Say for u64 {
    fn say(self, rt: &HostRuntime) {
        number(rt, self);
    }
}

impl Say for bool {
    fn say(self, rt: &HostRuntime) {
        let _ = print!(rt; "{self}");
    }
}

impl Say for Keyword {
    fn say(self, rt: &HostRuntime) {
        let _ = match self {
            Keyword::Header => print!(rt; "header"),
            Keyword::Record => print!(rt; "record"),
            Keyword::Nothing => print!(rt; "none"),
            Keyword::Parameter => print!(rt; "parameter"),
            Keyword::Other => print!(rt; "no keyword"),
        };
    }
}

impl Say for Bits {
    fn say(self, rt: &HostRuntime) {
        let Bits { low, high } = self;
        let _ = print!(rt; "{low} to {high}");
    }
}

impl Say for Ratio {
    fn say(self, rt: &HostRuntime) {
        let Ratio {
            numerator,
            denominator,
        } = self;
        let _ = print!(rt; "{numerator}/{denominator}");
    }
}

fn said<T: Say>(rt: &HostRuntime, answer: Result<T, Refusal>) {
    match answer {
        Ok(value) => value.say(rt),
        Err(r) => refused(rt, r),
    }
}

// A field by that spelling, trimmed as in a line. Declared are 1 subframe of 4 words of 12 bits, as on the wall.
pub fn answer_text(rt: &HostRuntime, kind: Kind, field: &[u8]) {
    let f = trimmed(field);
    match kind {
        Kind::Keyword => keyword_of(f).say(rt),
        Kind::Words => said(rt, integer(f, 6, 1, WORDS as u64)),
        Kind::Subframes => said(rt, integer(f, 6, 1, SUBFRAMES as u64)),
        Kind::WordBits => said(rt, integer(f, 6, 1, BITS as u64)),
        Kind::Margin => said(rt, margin(f, MARGIN as u64, BLANK_MARGIN as u64)),
        Kind::Identifier => said(rt, integer(f, 10, 0, VALUE as u64)),
        Kind::DeclaredSubframe => said(rt, declared(f, 1)),
        Kind::DeclaredWord => said(rt, declared(f, 4)),
        Kind::Overlap => said(rt, integer(f, 6, 0, 999999)),
        Kind::ComponentBits => said(rt, component_bits(f, 12)),
        Kind::SourceBits => said(rt, source_bits(f)),
        Kind::Label => said(rt, label(f)),
        Kind::Time => said(rt, decimal(f, 3)),
        Kind::Delay => said(rt, delay(f)),
        Kind::Seconds => said(rt, seconds(f)),
        Kind::Truth => said(rt, truth(f)),
        Kind::TruthOrEmpty => said(rt, truth_or_empty(f)),
        Kind::Text => said(rt, text_field(f, 200, false)),
        Kind::Model => said(rt, text_field(f, 200, true)),
        Kind::Name => said(rt, text_field(f, TEXT, true)),
        Kind::Mnemonic => said(rt, text_field(f, TEXT, false)),
        Kind::Version => said(rt, version(f)),
        Kind::MustBeEmpty => said(rt, must_be_empty(f)),
        Kind::Fields => fields_text(rt, field),
        Kind::Lines => lines_of_file(rt, field),
    }
}
