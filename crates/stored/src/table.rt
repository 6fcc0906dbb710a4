// A table opened, and its entries, counted from 0. No form is known here.
ghost use Rattle.std.specs.Prelude.{◌<◌};
ghost use Rattle.model.specs.Stored.{subframes_in, parameters_in, samples_in, components_in};
ghost use Rattle.stored.specs.Entry.{OpenedOf, SubframeOf, ParameterOf, SampleOf, ComponentOf};

use super::forms::{component_shape, parameter_shape, sample_shape, subframe_shape};
use super::items::{ComponentEntry, Opened, ParameterEntry, SampleEntry, SubframeEntry};
use lay::item::{item_at, long_at};

// Bytes whose every entry lies in them, with what opening them found.
#[derive(Clone, Copy)]
pub struct Table<'t> {
    pub bytes: &'t [u8],
    pub opened: Opened,
    pub ghost opened_of: { OpenedOf bytes.now opened },
}

impl<'t> Table<'t> {
    pub fn subframe_at(&self, i: usize) -> SubframeEntry
        requires i_bound { i < subframes_in self.now.bytes.now }
        ensures { SubframeOf self.now.bytes.now i result }
    {
        let s = subframe_shape(self.opened.form);
        let at = self.opened.starts.subframes + s.size * i;
        let bits = item_at(self.bytes, at, s.bits);
        let words = item_at(self.bytes, at, s.words);
        let leading = item_at(self.bytes, at, s.leading);
        let trailing = item_at(self.bytes, at, s.trailing);
        let numerator = long_at(self.bytes, at, s.numerator);
        let denominator = item_at(self.bytes, at, s.denominator);
        SubframeEntry {
            bits,
            words,
            leading,
            trailing,
            numerator,
            denominator,
        }
    }

    pub fn parameter_at(&self, i: usize) -> ParameterEntry
        requires i_bound { i < parameters_in self.now.bytes.now }
        ensures { ParameterOf self.now.bytes.now i result }
    {
        let s = parameter_shape(self.opened.form);
        let at = self.opened.starts.parameters + s.size * i;
        let name = item_at(self.bytes, at, s.name);
        let mnemonic = item_at(self.bytes, at, s.mnemonic);
        let identification = item_at(self.bytes, at, s.identification);
        let flags = item_at(self.bytes, at, s.flags);
        let start = item_at(self.bytes, at, s.start);
        let first = item_at(self.bytes, at, s.first);
        let count = item_at(self.bytes, at, s.count);
        let value = item_at(self.bytes, at, s.value);
        ParameterEntry {
            name,
            mnemonic,
            identification,
            flags,
            start,
            first,
            count,
            value,
        }
    }

    pub fn sample_at(&self, j: usize) -> SampleEntry
        requires j_bound { j < samples_in self.now.bytes.now }
        ensures { SampleOf self.now.bytes.now j result }
    {
        let s = sample_shape(self.opened.form);
        let at = self.opened.starts.samples + s.size * j;
        let time = item_at(self.bytes, at, s.time);
        let first = item_at(self.bytes, at, s.first);
        let count = item_at(self.bytes, at, s.count);
        SampleEntry { time, first, count }
    }

    pub fn component_at(&self, k: usize) -> ComponentEntry
        requires k_bound { k < components_in self.now.bytes.now }
        ensures { ComponentOf self.now.bytes.now k result }
    {
        let s = component_shape(self.opened.form);
        let at = self.opened.starts.components + s.size * k;
        let subframe = item_at(self.bytes, at, s.subframe);
        let word = item_at(self.bytes, at, s.word);
        let low = item_at(self.bytes, at, s.low);
        let high = item_at(self.bytes, at, s.high);
        let overlap = item_at(self.bytes, at, s.overlap);
        ComponentEntry {
            subframe,
            word,
            low,
            high,
            overlap,
        }
    }
}
