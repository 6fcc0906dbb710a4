// A table of whoever made it: the check, and its parameters' names.
ghost use Rattle.bench.specs.Promises.{Checks, CheckNumbered, Names, NameNumbered, NamesBy, NameByNumbered};

use table::reason::{Reason, answer_number};

pub fn check(t: &[u8]) -> Result<(), Reason>
    ensures { Checks t.now result }
{
    table::check::check(t)
}

// 0 or 18.
#[tactic(auto, unfolding(table::specs::Answers::check_number))]
pub fn check_number(checked: Result<(), Reason>) -> u32
    ensures { CheckNumbered checked result }
{
    answer_number(&checked)
}

// The name of the parameter with this number, as the table's own bytes; empty where refused.
pub fn name<'t>(t: &'t [u8], parameter: u32) -> &'t [u8]
    ensures { Names t.entry parameter result }
{
    table::naming::name(t, parameter)
}

// 0, 18 or 21.
pub fn name_number(t: &[u8], parameter: u32) -> u32
    ensures { NameNumbered t.now parameter result }
{
    table::naming::name_number(t, parameter)
}

// The same for the parameter with this mnemonic.
pub fn name_by<'t, 'm>(t: &'t [u8], mnemonic: &'m [u8]) -> &'t [u8]
    ensures { NamesBy t.entry mnemonic.now result }
{
    table::naming::name_by(t, mnemonic)
}

pub fn name_by_number(t: &[u8], mnemonic: &[u8]) -> u32
    ensures { NameByNumbered t.now mnemonic.now result }
{
    table::naming::name_by_number(t, mnemonic)
}
