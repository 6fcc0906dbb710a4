// The C interface: each export is the call of that name in crate ffi, with its promise. include/orbelundri.h declares them.
#![tactic(auto)]

ghost use Rattle.ffi.specs.Promises.{MakesOut, ChecksOut, NamesOut, NamesByOut, ReadsOut, PlacesOut, ComparesOut, PagesOut, CardsOut, FrameBitsOut};

use ffi::cards::OrbCarded;
use ffi::frames::OrbCompared;
use ffi::sheets::OrbMade;
use ffi::tables::OrbName;
use framing::page::{Outcome, Paged, Request};

#[unsafe(no_mangle)]
pub extern "C" fn orb_make(sheet: &[u8], table: &mut [u8]) -> OrbMade
    ensures { MakesOut sheet.now table.old result table.new }
{
    ffi::sheets::orb_make(sheet, table)
}

#[unsafe(no_mangle)]
pub extern "C" fn orb_check(table: &[u8]) -> u32
    ensures { ChecksOut table.now result }
{
    ffi::tables::orb_check(table)
}

#[unsafe(no_mangle)]
pub extern "C" fn orb_name_of(table: &[u8], parameter: u32) -> OrbName
    ensures { NamesOut table.now parameter result }
{
    ffi::tables::orb_name_of(table, parameter)
}

#[unsafe(no_mangle)]
pub extern "C" fn orb_name_by(table: &[u8], mnemonic: &[u8]) -> OrbName
    ensures { NamesByOut table.now mnemonic.now result }
{
    ffi::tables::orb_name_by(table, mnemonic)
}

#[unsafe(no_mangle)]
pub extern "C" fn orb_read(table: &[u8], words: &[u16], parameter: u32, sample: u32) -> Outcome
    ensures { ReadsOut table.now words.now parameter sample result }
{
    ffi::frames::orb_read(table, words, parameter, sample)
}

#[unsafe(no_mangle)]
pub extern "C" fn orb_place(
    table: &[u8],
    words: &mut [u16],
    parameter: u32,
    sample: u32,
    value: u64,
) -> u32
    ensures { PlacesOut table.now words.old parameter sample value result words.new }
{
    ffi::frames::orb_place(table, words, parameter, sample, value)
}

#[unsafe(no_mangle)]
pub extern "C" fn orb_compare(table: &[u8], words: &[u16]) -> OrbCompared
    ensures { ComparesOut table.now words.now result }
{
    ffi::frames::orb_compare(table, words)
}

#[unsafe(no_mangle)]
pub extern "C" fn orb_page(
    table: &[u8],
    words: &[u16],
    requests: &[Request],
    results: &mut [Outcome],
) -> Paged
    ensures { PagesOut table.now words.now requests.now results.old result results.new }
{
    ffi::pages::orb_page(table, words, requests, results)
}

#[unsafe(no_mangle)]
pub extern "C" fn orb_card(table: &[u8], stream: &[u8], words: &mut [u16]) -> OrbCarded
    ensures { CardsOut table.now stream.now 0 words.old result words.new }
{
    ffi::cards::orb_card(table, stream, words)
}

#[unsafe(no_mangle)]
pub extern "C" fn orb_card_from(
    table: &[u8],
    stream: &[u8],
    from: u32,
    words: &mut [u16],
) -> OrbCarded
    ensures { CardsOut table.now stream.now from words.old result words.new }
{
    ffi::cards::orb_card_from(table, stream, from, words)
}

#[unsafe(no_mangle)]
pub extern "C" fn orb_frame_bits(table: &[u8]) -> u32
    ensures { FrameBitsOut table.now result }
{
    ffi::cards::orb_frame_bits(table)
}
