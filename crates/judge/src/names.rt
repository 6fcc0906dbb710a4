// 15: names of earlier parameters, kept as places in the sheet.
ghost use Rattle.std.specs.Prelude.{◌≡◌, ◌*◌, ◌≤◌, length};
ghost use Rattle.judge.specs.Names.{text_at, differs_in, new_name_in, new_mnemonic_in, new_identification_in, unlike_names, names_in, place_in, no_places, places_after};

use crate::rows::Kept;
use crate::tests::refused_if;
use lay::same_text;
use lineforms::due::Form;
use text::field::{field_at, field_of};
use text::refusal::Refusal;

// The text at a place; nothing where the sheet has no such place.
fn text_at(sheet: &[u8], place: Place) -> &[u8]
    ensures { result.now ≡ text_at sheet.now place }
{
    sheet.get(place.start..place.end).unwrap_or(&[])
}

// Whether another text stands at a place.
fn differs(sheet: &[u8], place: Place, text: &[u8]) -> bool
    ensures { result ≡ differs_in sheet.now text.now place }
{
    !same_text(text_at(sheet, place), text)
}

// Whether no parameter has this name; this mnemonic; this identification. (Three
// functions: three definitions, which theorems name, say it of a text each.)
fn is_new_name(sheet: &[u8], kept: &[Kept], name: &[u8]) -> bool
    ensures { result ≡ new_name_in sheet.now kept.now name.now }
{
    kept.iter().all(|k| differs(sheet, k.places.name, name))
}

fn is_new_mnemonic(sheet: &[u8], kept: &[Kept], mnemonic: &[u8]) -> bool
    ensures { result ≡ new_mnemonic_in sheet.now kept.now mnemonic.now }
{
    kept.iter()
        .all(|k| differs(sheet, k.places.mnemonic, mnemonic))
}

fn is_new_identification(sheet: &[u8], kept: &[Kept], identification: &[u8]) -> bool
    ensures { result ≡ new_identification_in sheet.now kept.now identification.now }
{
    kept.iter().all(|k| differs(sheet, k.places.identification, identification))
}

// Whether a 7-field line's texts are none of those of these parameters. An empty mnemonic or identification is like no other.
#[tactic(auto, unfolding(crate::specs::Names::unlike_names))]
fn unlike_names(sheet: &[u8], line: &[u8], kept: &[Kept]) -> bool
    ensures { result ≡ unlike_names sheet.now kept.now line.now }
{
    let mnemonic = field_of(line, 1);
    let identification = field_of(line, 2);
    is_new_name(sheet, kept, field_of(line, 0))
        && (mnemonic.is_empty() || is_new_mnemonic(sheet, kept, mnemonic))
        && (identification.is_empty() || is_new_identification(sheet, kept, identification))
}

// 15 of a line, by what it turned out to be.
pub fn names_judged(form: Form, sheet: &[u8], line: &[u8], kept: &[Kept]) -> Result<(), Refusal>
    ensures { result ≡ names_in form sheet.now kept.now line.now }
{
    match form {
        Form::NameLine => refused_if(!unlike_names(sheet, line, kept), Refusal::Repeated),
        _ => Ok(()),
    }
}

// Where a text stands in the sheet.
#[derive(Clone, Copy)]
pub struct Place {
    pub start: usize,
    pub end: usize,
}

// Where the open parameter's texts stand.
#[derive(Clone, Copy)]
pub struct Places {
    pub name: Place,
    pub mnemonic: Place,
    pub identification: Place,
}

pub fn no_places() -> Places
    ensures { result ≡ no_places }
{
    let none = Place { start: 0, end: 0 };
    Places {
        name: none,
        mnemonic: none,
        identification: none,
    }
}

// Field k of a line that begins here in the sheet.
fn place_in(line: &[u8], begin: usize, k: usize) -> Place
    requires { (begin ≤ 65536) × (length line.now ≤ 65536) }
    ensures { result ≡ place_in line.now begin k }
{
    let f = field_at(line, k);
    Place {
        start: begin + f.start,
        end: begin + f.end,
    }
}

// The 7-field line opens a parameter, the last blank line closes it.
pub fn places_after(form: Form, line: &[u8], begin: usize, here: Places) -> Places
    requires { (begin ≤ 65536) × (length line.now ≤ 65536) }
    ensures { result ≡ places_after form line.now begin here }
{
    match form {
        Form::NameLine => Places {
            name: place_in(line, begin, 0),
            mnemonic: place_in(line, begin, 1),
            identification: place_in(line, begin, 2),
        },
        Form::ParameterEnd => no_places(),
        _ => here,
    }
}
