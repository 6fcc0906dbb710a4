// A frame's words handed out of a stream.
ghost use Rattle.std.specs.Prelude.{◌≡◌, ◌+◌, ◌*◌, ◌≤◌, length};
ghost use Rattle.lay.specs.Below.{tab};
ghost use Rattle.lay.specs.Bytes.{put};
ghost use Rattle.stream.specs.Stream.{bits_from};
ghost use Rattle.model.specs.Forms.{sheet_limits};
ghost use Rattle.model.specs.Frame.{frame_words};
ghost use Rattle.model.specs.View.{view};
ghost use Rattle.carding.specs.Layout.{frame_at};
ghost use Rattle.carding.specs.Answer.{longest_stream};
ghost use Rattle.card.specs.Promise.{most_frame_bits};

use super::spanned::SpannedTable;
use stream::bits_at;

// So many words of so many bits that stand in a row from bit k on, into the words from `at` on.
fn hand_row(stream: &[u8], k: usize, bits: usize, count: usize, words: &mut [u16], at: usize)
    requires bits_le_bits { (bits ≤ sheet_limits.bits) × (count ≤ sheet_limits.words) × (k ≤ 8 * longest_stream + most_frame_bits) }
    requires count_in_bounds { at + count ≤ length words.old }
    ensures { words.new ≡ put words.old at (tab count (λ w. bits_from stream.now (k + w * bits) bits)) }
{
    let mut place = k;
    for w in 0..count {
        words[at + w] = bits_at(stream, place, bits as u32) as u16;
        place += bits;
    }
}

// The frame at p; what stands behind its words stays.
#[tactic(auto, using(crate::proofs::SpanLaws::narrow_there, crate::proofs::Handing::handed_all))]
pub fn hand_out(s: &SpannedTable, stream: &[u8], p: usize, words: &mut [u16])
    requires p_bound { p ≤ 8 * longest_stream }
    requires t_in_bounds { frame_words (view s.now.ruled.declared.table.bytes.now) ≤ length words.old }
    ensures { words.new ≡ put words.old 0 (frame_at (view s.now.ruled.declared.table.bytes.now) stream.now p) }
{
    let mut at = 0;
    for i in 0..s.ruled.declared.table.opened.counts.subframes {
        let f = s.ruled.declared.table.subframe_at(i);
        hand_row(stream, p + s.begins[i], f.bits, f.words, words, at);
        at += f.words;
    }
}
