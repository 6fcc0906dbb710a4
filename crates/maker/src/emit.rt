// What each line writes into the table, at the end of its part.
ghost use Rattle.std.specs.Prelude.{◌≡◌, ◌++◌, ◌+◌, ◌≤◌, length};
ghost use Rattle.lay.specs.Bytes.{put};
ghost use Rattle.text.specs.Fields.{field_of};
ghost use Rattle.maker.specs.Emit.{described_by, emit_of, Roomy, OpenCounted};

use crate::copies::put_copies;
use crate::entries::{Described, put_component, put_parameter, put_sample};
use judge::tally::Tally;
use lay::put::put_text;
use lineforms::due::Form;
use lineforms::said::{pair_in, part_in, time_in};
use stored::items::Starts;
use text::field::field_of;

// The three texts of a name line, with nothing between.
#[tactic(auto, using(crate::proofs::NamesPut::names_put))]
fn put_names(out: &mut [u8], o: usize, line: &[u8])
    requires { o + length (field_of 0 line.now ++ (field_of 1 line.now ++ field_of 2 line.now)) ≤ length out.old }
    ensures { out.new ≡ put out.old o (field_of 0 line.now ++ (field_of 1 line.now ++ field_of 2 line.now)) }
{
    let name = field_of(line, 0);
    let mnemonic = field_of(line, 1);
    put_text(out, o, name);
    put_text(out, o + name.len(), mnemonic);
    put_text(out, o + name.len() + mnemonic.len(), field_of(line, 2));
}

// The open parameter, as its entry holds it.
fn described(x: Tally) -> Described
    requires { x.own ≤ x.samples }
    ensures { result ≡ described_by x }
{
    Described {
        name: x.name,
        mnemonic: x.mnemonic,
        identification: x.identification,
        signed: x.signed,
        identifier: x.identifier,
        text: x.text,
        first: x.samples - x.own,
        count: x.own,
        value: x.value,
    }
}

// Each record pair is written n times.
pub fn emit(form: Form, line: &[u8], x: Tally, a: Starts, n: usize, out: &mut [u8])
    requires { OpenCounted x × Roomy form line.now x a n (length out.old) }
    ensures { out.new ≡ emit_of form line.now x a n out.old }
{
    match form {
        Form::RecordLine => put_copies(out, a.subframes, x.pairs, n, pair_in(line)),
        Form::NameLine => put_names(out, a.text + x.text, line),
        Form::OpeningComponent | Form::ComponentLine => {
            put_component(out, a.components, x.components, part_in(line))
        }
        Form::TimeLine => put_sample(
            out,
            a.samples,
            x.samples,
            time_in(line),
            x.components - x.parts,
            x.parts,
        ),
        Form::ParameterEnd => put_parameter(out, a.parameters, x.parameters, described(x)),
        // every other line writes nothing
        _ => {}
    }
}
