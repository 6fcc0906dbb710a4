// The lines of a sheet by what is due: what a line turns out to be, its fields' tests, and what it says.
#![tactic(auto)]

pub mod due;
pub mod fields;
pub mod said;
