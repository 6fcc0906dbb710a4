// The bench: what the bureau's desk calls, and nothing else. Every call answers for every input.
#![tactic(auto)]

pub mod cards;
pub mod frames;
pub mod pages;
pub mod sheets;
pub mod tables;
pub mod texts;
