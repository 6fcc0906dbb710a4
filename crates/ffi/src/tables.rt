// A table of whoever made it: the check, and where its parameters' names stand.
ghost use Rattle.std.specs.Prelude.{◌≡◌};
ghost use Rattle.table.specs.Answers.{AskedHere};
ghost use Rattle.ffi.specs.Structs.{no_name_out, name_out};
ghost use Rattle.ffi.specs.Promises.{ChecksOut, NamesOut, NamesByOut};

use bench::tables::{check, check_number};
use stored::table::Table;
use table::check::opening;
use table::naming::{numbered, with_mnemonic};
use table::reason::{Reason, reason_number};

// A name is a part of the table: where it starts, and how many bytes it has; all 0 but the number where refused.
#[repr(C)]
#[derive(Clone, Copy)]
pub struct OrbName {
    pub number: u32,
    pub start: usize,
    pub length: usize,
}

// No name, and why.
fn no_name(reason: Reason) -> OrbName
    ensures { result ≡ no_name_out reason }
{
    let number = reason_number(reason);
    OrbName {
        number,
        start: 0,
        length: 0,
    }
}

fn name_out(t: &Table, asked: Result<usize, Reason>) -> OrbName
    requires asked_here { AskedHere t.now.bytes.now asked }
    ensures { result ≡ name_out t.now.bytes.now asked }
{
    match asked {
        Ok(i) => {
            let e = t.parameter_at(i);
            OrbName {
                number: 0,
                start: t.opened.starts.text + e.start,
                length: e.name,
            }
        }
        Err(reason) => no_name(reason),
    }
}

// 0 or 18.
pub fn orb_check(table: &[u8]) -> u32
    ensures { ChecksOut table.now result }
{
    check_number(check(table))
}

// The name of the parameter with this number, counted from 1.
pub fn orb_name_of(table: &[u8], parameter: u32) -> OrbName
    ensures { NamesOut table.now parameter result }
{
    match opening(table) {
        Some(r) => {
            let t = &r.declared.table;
            name_out(t, numbered(t.opened.counts.parameters, parameter))
        }
        None => no_name(Reason::NoTable),
    }
}

// The name of the parameter with this mnemonic. (Beside the one by number: a closure for the one line between would need a contract that
// says as much.)
pub fn orb_name_by(table: &[u8], mnemonic: &[u8]) -> OrbName
    ensures { NamesByOut table.now mnemonic.now result }
{
    match opening(table) {
        Some(r) => {
            let t = &r.declared.table;
            name_out(t, with_mnemonic(t, mnemonic))
        }
        None => no_name(Reason::NoTable),
    }
}
