// A case: what is asked, and its arguments.
ghost use Rattle.std.specs.Prelude.{◌≤◌, ◌<◌, length, IsSome};

use crate::cursor::Cursor;
use framing::page::Request;

// A table and a frame's words, two bytes each.
#[derive(Clone, Copy)]
pub struct Frame<'s> {
    pub table: &'s [u8],
    pub words: &'s [u8],
}

// The last number of kinds 1, 8, 9 and 10 is how many bytes, words or results are lent.
#[derive(Clone, Copy)]
pub enum Case<'s> {
    // A sheet.
    Make(&'s [u8], usize),
    // A table.
    Check(&'s [u8]),
    Read(Frame<'s>, Request),
    // With the value to place.
    Place(Frame<'s>, Request, u64),
    Compare(Frame<'s>),
    // A table, and a parameter's number or mnemonic.
    Name(&'s [u8], u32),
    NameBy(&'s [u8], &'s [u8]),
    // A table, a card's stream and the bit to begin at, if one is said.
    Card(&'s [u8], &'s [u8], Option<u32>, usize),
    // With the requests, eight bytes each.
    Page(Frame<'s>, &'s [u8], usize),
}

impl<'s> Cursor<'s> {
    fn bytes(&mut self) -> Option<&'s [u8]>
        ensures { length self.new.rest.now ≤ length self.old.rest.now }
    {
        self.items(1)
    }

    fn frame(&mut self) -> Option<Frame<'s>>
        ensures { length self.new.rest.now ≤ length self.old.rest.now }
    {
        let table = self.bytes()?;
        let words = self.items(2)?;
        Some(Frame { table, words })
    }

    pub fn request(&mut self) -> Option<Request>
        ensures { length self.new.rest.now ≤ length self.old.rest.now }
    {
        let parameter = self.four()?;
        let sample = self.four()?;
        Some(Request { parameter, sample })
    }

    fn lent(&mut self) -> Option<usize>
        ensures { length self.new.rest.now ≤ length self.old.rest.now }
    {
        self.four().map(|n| n as usize)
    }

    // The arguments of a case of the kind with that number, in their order.
    fn arguments(&mut self, kind: u8) -> Option<Case<'s>>
        ensures { length self.new.rest.now ≤ length self.old.rest.now }
    {
        let case = match kind {
            1 => Case::Make(self.bytes()?, self.lent()?),
            2 => Case::Check(self.bytes()?),
            3 => Case::Read(self.frame()?, self.request()?),
            4 => Case::Place(self.frame()?, self.request()?, self.eight()?),
            5 => Case::Compare(self.frame()?),
            6 => Case::Name(self.bytes()?, self.four()?),
            7 => Case::NameBy(self.bytes()?, self.bytes()?),
            8 => Case::Card(self.bytes()?, self.bytes()?, None, self.lent()?),
            9 => Case::Page(self.frame()?, self.items(8)?, self.lent()?),
            10 => Case::Card(
                self.bytes()?,
                self.bytes()?,
                Some(self.four()?),
                self.lent()?,
            ),
            _ => return None,
        };
        Some(case)
    }

    // The next case, its kind's number first.
    pub fn case(&mut self) -> Option<Case<'s>>
        ensures { IsSome result → length self.new.rest.now < length self.old.rest.now }
    {
        let kind = self.one()?;
        self.arguments(kind)
    }
}
