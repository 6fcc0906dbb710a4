// The bench for programs in C: the same calls, with numbers for answers. Crate ffi_c exports them; include/orbelundri.h declares them.
#![tactic(auto)]

pub mod cards;
pub mod frames;
pub mod pages;
pub mod sheets;
pub mod tables;
