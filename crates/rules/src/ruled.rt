// A table whose layout, subframes and parameters are in order.
ghost use Rattle.std.proofs.Props.{props};
ghost use Rattle.rules.specs.Ruled.{Ruled};
ghost use Rattle.rules.specs.Props.{margin_law_prop};

use super::declared::DeclaredTable;

#[derive(Clone, Copy)]
pub struct RuledTable<'t> {
    pub declared: DeclaredTable<'t>,
    pub ghost ruled: { Ruled declared.table.bytes.now } by { Prim.hlevel (props, margin_law_prop) },
}
