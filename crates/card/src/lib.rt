// Quick access cards: a frame found in a stream of bits, and its words handed out.
#![tactic(auto)]

pub mod agree;
pub mod card;
pub mod hand;
pub mod margins;
pub mod rows;
pub mod search;
pub mod sieve;
pub mod spanned;
pub mod spans;
