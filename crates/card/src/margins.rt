// Whether a table tells its margins: "26, after 27, for form 1 or for an unknown margin".
ghost use Rattle.std.specs.Prelude.{◌≡◌};
ghost use Rattle.carding.specs.Answer.{margins_told};

use model::limits::BLANK_MARGIN;
use stored::forms::bounds_of;
use stored::table::Table;

// The form has a way to say that a margin is unknown, and no margin, leading or trailing, is.
pub fn margins_told(t: &Table) -> bool
    ensures { result ≡ margins_told t.now.bytes.now }
{
    if !bounds_of(t.opened.form).blank {
        return false;
    }
    for i in 0..t.opened.counts.subframes {
        let f = t.subframe_at(i);
        if f.leading == BLANK_MARGIN || f.trailing == BLANK_MARGIN {
            return false;
        }
    }
    true
}
