// A table in order, with where the words of its subframes begin: what the reading of one card finds once.
ghost use Rattle.card.specs.Promise.{BeginsOf};

use model::limits::SUBFRAMES;
use rules::ruled::RuledTable;

// By subframe, counted from 0, how many bits of a frame stand before its words, in memory that is fixed.
#[derive(Clone, Copy)]
pub struct SpannedTable<'t> {
    pub ruled: RuledTable<'t>,
    pub begins: [usize; SUBFRAMES],
    pub ghost begins_of: { BeginsOf ruled.declared.table.bytes.now begins },
}
