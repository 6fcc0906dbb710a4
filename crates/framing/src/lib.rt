// What the calls on a frame answer: an enum and structs, their definitions in specs/ and the laws about them; no function of its own.
#![tactic(auto)]

pub mod page;
pub mod read;
