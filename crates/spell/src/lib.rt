// The spellings of one field: what each says, or what it is refused for.
#![tactic(auto)]

pub mod answers;
pub mod decimals;
pub mod digits;
pub mod integers;
pub mod ranges;
pub mod seconds;
pub mod texts;
pub mod truths;
