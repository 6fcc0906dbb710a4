// What is found once for all reads of a page: the table opened, and whether the words fit it.
ghost use Rattle.std.specs.Prelude.{◌≡◌};
ghost use Rattle.std.proofs.Props.{props};
ghost use Rattle.model.specs.View.{view};
ghost use Rattle.framing.specs.Fitting.{fit_of};

use rules::based::BasedTable;
use table::reason::Reason;

#[derive(Clone, Copy)]
pub struct Page<'t> {
    pub table: BasedTable<'t>,
    pub words: &'t [u16],
    pub fit: Result<(), Reason>,
    pub ghost fit_value: { fit ≡ fit_of (view table.ruled.declared.table.bytes.now) words.now },
}
