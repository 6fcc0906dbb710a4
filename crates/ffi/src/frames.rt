// A frame read, filled and compared by a table. Parameters and samples are counted from 1.
ghost use Rattle.std.specs.Prelude.{◌≡◌};
ghost use Rattle.ffi.specs.Structs.{compared_out};
ghost use Rattle.ffi.specs.Sizes.{SubframeFits};
ghost use Rattle.ffi.specs.Promises.{ReadsOut, PlacesOut, ComparesOut};

use bench::frames::{compare, compare_number, place, place_number, read};
use frame::page::outcome_of;
use framing::page::Outcome;
use table::reason::Reason;

// The subframe stands beside 24, and is 0 elsewhere.
#[repr(C)]
#[derive(Clone, Copy)]
pub struct OrbCompared {
    pub number: u32,
    pub subframe: u32,
}

#[tactic(auto, unfolding(crate::specs::Structs::compared_out, crate::specs::Structs::differing))]
fn compared_out(compared: Result<Option<usize>, Reason>) -> OrbCompared
    requires { SubframeFits compared }
    ensures { result ≡ compared_out compared }
{
    let number = compare_number(compared);
    match compared {
        Ok(Some(s)) => OrbCompared {
            number,
            subframe: s as u32,
        },
        Ok(None) | Err(_) => OrbCompared {
            number,
            subframe: 0,
        },
    }
}

// One sample, or why there is none.
pub fn orb_read(table: &[u8], words: &[u16], parameter: u32, sample: u32) -> Outcome
    ensures { ReadsOut table.now words.now parameter sample result }
{
    outcome_of(read(table, words, parameter, sample))
}

// A raw value placed; no word is changed where it is refused.
pub fn orb_place(table: &[u8], words: &mut [u16], parameter: u32, sample: u32, value: u64) -> u32
    ensures { PlacesOut table.now words.old parameter sample value result words.new }
{
    place_number(place(table, words, parameter, sample, value))
}

// The frame against its identifiers.
pub fn orb_compare(table: &[u8], words: &[u16]) -> OrbCompared
    ensures { ComparesOut table.now words.now result }
{
    compared_out(compare(table, words))
}
