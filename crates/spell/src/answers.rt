// What a field says of bits; what the other fields say are numbers, truths and fractions.

// Bits from low to high, both counted from 1.
#[derive(Clone, Copy, Debug, PartialEq, Eq)]
pub struct Bits {
    pub low: u64,
    pub high: u64,
}
