// The sum of lent bytes, words or outcomes: h = 0, then for each item x in order h = (h * 257 + x + 1) mod 4,294,967,291.
ghost use Rattle.std.specs.Prelude.{◌<◌};

use framing::page::Outcome;

const MODULUS: u64 = 4294967291;

#[derive(Clone, Copy)]
pub struct Sum {
    pub value: u64,
    ghost below: { value < 4294967291 },
}

impl Sum {
    pub fn new() -> Sum {
        Sum { value: 0 }
    }

    pub fn item(self, x: u32) -> Sum {
        Sum {
            value: (self.value * 257 + x as u64 + 1) % MODULUS,
        }
    }

    // An outcome's six numbers, the value's low half before its high half.
    pub fn outcome(self, o: Outcome) -> Sum {
        let value = o.value.cast_unsigned();
        self.item(o.number)
            .item(o.kind)
            .item(o.width)
            .item(o.raw)
            .item(bits::low_bits_of(value, 32) as u32)
            .item(bits::bits_above(value, 32) as u32)
    }
}

pub fn of_items<T: Copy + Into<u32>>(items: &[T]) -> u64 {
    items
        .iter()
        .fold(Sum::new(), |sum, x| sum.item((*x).into()))
        .value
}
