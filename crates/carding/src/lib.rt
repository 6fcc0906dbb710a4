// Quick access cards: what a card's reading answers, its definitions in specs/ and the laws about them; no function.
#![tactic(auto)]

pub mod carded;
