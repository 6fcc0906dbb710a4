// A frame of as many words as its table says.
ghost use Rattle.std.specs.Prelude.{◌≡◌, length};
ghost use Rattle.model.specs.Frame.{frame_words};
ghost use Rattle.model.specs.View.{view};

use rules::based::BasedTable;

// The words beside the table by which they are read.
#[derive(Clone, Copy)]
pub struct Frame<'f, 't> {
    pub based: &'f BasedTable<'t>,
    pub words: &'f [u16],
    pub ghost words_len: { length words.now ≡ frame_words (view based.now.ruled.declared.table.bytes.now) },
}
