// How much a table of the newest form holds, and so how much a sheet may say: 01's "Limits". specs/Forms.antt has the same
// numbers, by form; whatever takes one from here is proved against those.
pub const SUBFRAMES: usize = 32;

pub const BITS: usize = 16;

pub const WORDS: usize = 1024;

pub const MARGIN: usize = 4095;

// What stands for a margin that is unknown.
pub const BLANK_MARGIN: usize = 65535;

pub const PARAMETERS: usize = 512;

pub const SAMPLES_EACH: usize = 64;

pub const SAMPLES: usize = 4096;

pub const COMPONENTS_EACH: usize = 8;

pub const COMPONENTS: usize = 4096;

// Of a component: fewer bits than a word has.
pub const OVERLAP: usize = 15;

// Of a sample, in bits.
pub const WIDTH: usize = 32;

// Of a name, a mnemonic or an identification, in bytes.
pub const TEXT: usize = 64;

// In millionths of a second.
pub const TIME: usize = 999999999;

// Of the seconds as a fraction: the most that may stand below, and what they are less than.
pub const DENOMINATOR: usize = 1000000;

pub const SECONDS: usize = 1000000;

// Of an identifier.
pub const VALUE: usize = 4294967295;
