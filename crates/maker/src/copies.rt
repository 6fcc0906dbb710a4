// Equal subframe entries: one record pair may stand for all subframes.
ghost use Rattle.std.specs.Prelude.{◌≡◌, ◌+◌, ◌*◌, ◌≤◌, length};
ghost use Rattle.lay.specs.Bytes.{put};
ghost use Rattle.model.specs.Items.{subframe_part};
ghost use Rattle.laying.specs.Parts.{size, copied};
ghost use Rattle.maker.specs.Entries.{said_subframe};

use crate::entries::put_subframe;
use lineforms::said::Pair;
use stored::forms::{NEWEST, subframe_shape};

// n times the pair's entry, from the first on, of the subframes that begin at start.
#[tactic(auto, using(model::proofs::Rows::known_newest, crate::proofs::CopyLaws::copy_room, crate::proofs::CopyLaws::copies_more, lay::proofs::Puts::put_none), unfolding(model::specs::Forms::newest, model::specs::Forms::rows))]
pub fn put_copies(out: &mut [u8], start: usize, first: usize, n: usize, p: Pair)
    requires { start + size subframe_part * first + size subframe_part * n ≤ length out.old }
    ensures { out.new ≡ put out.old (start + size subframe_part * first) (copied n (said_subframe p)) }
{
    let s = subframe_shape(NEWEST);
    let o = start + s.size * first;
    for i in 0..n {
        put_subframe(out, o + s.size * i, p);
    }
}
