// A table whose subframes are in order.
ghost use Rattle.std.proofs.Props.{props};
ghost use Rattle.rules.specs.Ruled.{SubframesLaw};
ghost use Rattle.rules.specs.Props.{margin_law_prop};

use stored::table::Table;

#[derive(Clone, Copy)]
pub struct DeclaredTable<'t> {
    pub table: Table<'t>,
    pub ghost subframes_law: { SubframesLaw table.bytes.now } by { Prim.hlevel (props, margin_law_prop) },
}
