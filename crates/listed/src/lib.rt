// The listing's texts.
#![tactic(auto)]

pub mod cards;
pub mod listing;
pub mod numbers;
pub mod rows;
