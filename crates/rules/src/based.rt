// A table in order, with how many words stand before each subframe: found once for all reads of a frame.
ghost use Rattle.std.proofs.Props.{props};
ghost use Rattle.rules.specs.Ruled.{BasesOf};

use super::ruled::RuledTable;
use model::limits::SUBFRAMES;

// By subframe, counted from 0, in memory that is fixed. (Not in the types before this one: who checks a table, or asks it for a name,
// needs no word's place, and would pay for it.)
#[derive(Clone, Copy)]
pub struct BasedTable<'t> {
    pub ruled: RuledTable<'t>,
    pub before: [usize; SUBFRAMES],
    pub ghost bases_of: { BasesOf ruled.declared.table.bytes.now before },
}
