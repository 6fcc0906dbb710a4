// Kinds 2, 6 and 7: a table checked, and the place of a parameter's name in it.
ghost use Rattle.std.specs.Prelude.{◌≡◌};
ghost use Rattle.table.specs.Answers.{asked_number, asked_mnemonic, AskedHere, place_answered};

use crate::say::line;
use bench::tables::{check, check_number, name, name_by, name_by_number, name_number};
use stored::table::Table;
use table::check::opening;
use table::naming::{numbered, with_mnemonic};
use table::reason::Reason;

pub fn check_line(rt: &HostRuntime, table: &[u8]) {
    let number = check_number(check(table));
    line(rt, &[2], number.into());
}

// A slice doesn't say where it stands: the place comes from the parameter's entry. 0 where refused.
#[tactic(auto, unfolding(table::specs::Answers::place_answered))]
fn start_in(t: &Table, asked: Result<usize, Reason>) -> usize
    requires asked_here { AskedHere t.now.bytes.now asked }
    ensures { result ≡ place_answered t.now.bytes.now asked }
{
    match asked {
        Ok(i) => t.opened.starts.text + t.parameter_at(i).start,
        Err(_) => 0,
    }
}

// Beside `start_by`: they differ in what is asked, and a closure for it would need a contract that says as much.
fn start_of(t: &[u8], parameter: u32) -> usize
    ensures { result ≡ place_answered t.now (asked_number t.now parameter) }
{
    match opening(t) {
        Some(r) => {
            let table = &r.declared.table;
            start_in(table, numbered(table.opened.counts.parameters, parameter))
        }
        None => 0,
    }
}

pub fn name_line(rt: &HostRuntime, table: &[u8], parameter: u32) {
    let number = name_number(table, parameter);
    let start = start_of(table, parameter);
    let length = name(table, parameter).len();
    line(rt, &[6, number.into(), start as u64], length as u64);
}

fn start_by(t: &[u8], mnemonic: &[u8]) -> usize
    ensures { result ≡ place_answered t.now (asked_mnemonic t.now mnemonic.now) }
{
    match opening(t) {
        Some(r) => {
            let table = &r.declared.table;
            start_in(table, with_mnemonic(table, mnemonic))
        }
        None => 0,
    }
}

pub fn mnemonic_line(rt: &HostRuntime, table: &[u8], mnemonic: &[u8]) {
    let number = name_by_number(table, mnemonic);
    let start = start_by(table, mnemonic);
    let length = name_by(table, mnemonic).len();
    line(rt, &[7, number.into(), start as u64], length as u64);
}
