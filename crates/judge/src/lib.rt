// Judging a sheet: the counts of what its lines gather to, and the rules that look back.
#![tactic(auto)]

pub mod identifiers;
pub mod kept;
pub mod names;
pub mod rows;
pub mod sampling;
pub mod tally;
pub mod tests;
pub mod turn;
pub mod walk;
