// One entry of each kind, written at its place in the newest form. No form is known here.
ghost use Rattle.std.specs.Prelude.{◌≡◌, ◌+◌, ◌*◌, ◌≤◌, length};
ghost use Rattle.lay.specs.Bytes.{put};
ghost use Rattle.model.specs.Items.{subframe_part, parameter_part, sample_part, component_part};
ghost use Rattle.model.specs.Write.{subframe_values, component_values};
ghost use Rattle.laying.specs.Parts.{size, entry, head_size, header};
ghost use Rattle.maker.specs.Entries.{head_by, said_subframe, said_component, parameter_by, sample_by};

use lay::item::{Place, put_item, put_long};
use lineforms::said::{Pair, Part};
use stored::flags::{flag_of, flags_of};
use stored::forms::{
    FORM_AT, FORM_WIDE, NEWEST, component_shape, header_shape, parameter_shape, sample_shape,
    subframe_shape,
};
use stored::items::{Counts, Starts};

// What a parameter's entry holds: its texts' lengths, its flags, where its text starts within the text part, its first
// sample and how many it has, and its value as an identifier, 0 where it is none: the entry has both.
#[derive(Clone, Copy)]
pub struct Described {
    pub name: usize,
    pub mnemonic: usize,
    pub identification: usize,
    pub signed: bool,
    pub identifier: bool,
    pub text: usize,
    pub first: usize,
    pub count: usize,
    pub value: u64,
}

// The header: so many entries, and the parts' beginnings. An item that the form lacks is 0 bytes wide.
#[tactic(auto, using(model::proofs::Rows::known_newest), unfolding(model::specs::Forms::newest, model::specs::Forms::rows))]
pub fn put_header(out: &mut [u8], n: Counts, a: Starts, total: usize, sequential: bool)
    requires { head_size ≤ length out.old }
    ensures { out.new ≡ put out.old 0 (header (head_by n a total sequential)) }
{
    let s = header_shape(NEWEST);
    let flags = flag_of(sequential);
    put_item(out, 0, s.total, total);
    put_item(
        out,
        0,
        Place {
            at: FORM_AT,
            wide: FORM_WIDE,
        },
        NEWEST,
    );
    put_item(out, 0, s.flags, flags);
    put_item(out, 0, s.zeros, 0);
    put_item(out, 0, s.text, a.text);
    put_item(out, 0, s.subframes, n.subframes);
    put_item(out, 0, s.subframe, a.subframes);
    put_item(out, 0, s.parameters, n.parameters);
    put_item(out, 0, s.parameter, a.parameters);
    put_item(out, 0, s.samples, n.samples);
    put_item(out, 0, s.sample, a.samples);
    put_item(out, 0, s.components, n.components);
    put_item(out, 0, s.component, a.components);
}

// The entry at o.
#[tactic(auto, using(model::proofs::Rows::known_newest), unfolding(model::specs::Forms::newest, model::specs::Forms::rows))]
pub fn put_subframe(out: &mut [u8], o: usize, p: Pair)
    requires { o + size subframe_part ≤ length out.old }
    ensures { out.new ≡ put out.old o (entry subframe_part (subframe_values (said_subframe p))) }
{
    let s = subframe_shape(NEWEST);
    put_item(out, o, s.bits, p.bits as usize);
    put_item(out, o, s.words, p.words as usize);
    put_item(out, o, s.leading, p.leading as usize);
    put_item(out, o, s.trailing, p.trailing as usize);
    put_long(out, o, s.numerator, p.numerator);
    put_item(out, o, s.denominator, p.denominator as usize);
}

// Entry i of a part that begins at start.
#[tactic(auto, using(model::proofs::Rows::known_newest), unfolding(model::specs::Forms::newest, model::specs::Forms::rows))]
pub fn put_parameter(out: &mut [u8], start: usize, i: usize, d: Described)
    requires { start + size parameter_part * i + size parameter_part ≤ length out.old }
    ensures { out.new ≡ put out.old (start + size parameter_part * i) (entry parameter_part (parameter_by d)) }
{
    let s = parameter_shape(NEWEST);
    let o = start + s.size * i;
    let flags = flags_of(d.signed, d.identifier);
    put_item(out, o, s.name, d.name);
    put_item(out, o, s.mnemonic, d.mnemonic);
    put_item(out, o, s.identification, d.identification);
    put_item(out, o, s.flags, flags);
    put_item(out, o, s.start, d.text);
    put_item(out, o, s.first, d.first);
    put_item(out, o, s.count, d.count);
    put_item(out, o, s.value, d.value as usize);
}

#[tactic(auto, using(model::proofs::Rows::known_newest), unfolding(model::specs::Forms::newest, model::specs::Forms::rows))]
pub fn put_sample(out: &mut [u8], start: usize, i: usize, time: u64, first: usize, count: usize)
    requires { start + size sample_part * i + size sample_part ≤ length out.old }
    ensures { out.new ≡ put out.old (start + size sample_part * i) (entry sample_part (sample_by time first count)) }
{
    let s = sample_shape(NEWEST);
    let o = start + s.size * i;
    put_item(out, o, s.time, time as usize);
    put_item(out, o, s.first, first);
    put_item(out, o, s.count, count);
}

#[tactic(auto, using(model::proofs::Rows::known_newest), unfolding(model::specs::Forms::newest, model::specs::Forms::rows))]
pub fn put_component(out: &mut [u8], start: usize, i: usize, p: Part)
    requires { start + size component_part * i + size component_part ≤ length out.old }
    ensures { out.new ≡ put out.old (start + size component_part * i) (entry component_part (component_values (said_component p))) }
{
    let s = component_shape(NEWEST);
    let o = start + s.size * i;
    put_item(out, o, s.subframe, p.subframe as usize);
    put_item(out, o, s.word, p.word as usize);
    put_item(out, o, s.low, p.low as usize);
    put_item(out, o, s.high, p.high as usize);
    put_item(out, o, s.overlap, p.overlap as usize);
    put_item(out, o, s.zero, 0);
}
