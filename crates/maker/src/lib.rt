// Making a location table from a sheet.
#![tactic(auto)]

pub mod copies;
pub mod emit;
pub mod entries;
pub mod make;
pub mod walk;
