// Kinds 8 and 10: the first frame of a card, and the first from a bit on.
use crate::say::line;
use crate::sum::of_items;
use bench::cards::{card, card_from, card_number};
use carding::carded::Found;

pub fn card_line(
    rt: &HostRuntime,
    table: &[u8],
    stream: &[u8],
    from: Option<u32>,
    lent: &mut [u16],
) {
    lent.fill(42405);
    let (kind, found) = match from {
        None => (8, card(table, stream, lent)),
        Some(bit) => (10, card_from(table, stream, bit, lent)),
    };
    let number = card_number(found);
    let Found { position, count } = found.unwrap_or(Found {
        position: 0,
        count: 0,
    });
    let sum = of_items(lent);
    let said = [kind, number.into(), position.into(), count.into()];
    line(rt, &said, sum);
}
