// The place in the file of cases: the bytes that are left. An argument that is cut off is None, and ends the run.
ghost use Rattle.std.specs.Prelude.{◌≤◌, ◌<◌, length, IsSome};

#[derive(Clone, Copy)]
pub struct Cursor<'s> {
    pub rest: &'s [u8],
}

impl<'s> Cursor<'s> {
    // The next n bytes.
    fn run(&mut self, n: usize) -> Option<&'s [u8]>
        ensures { length self.new.rest.now ≤ length self.old.rest.now }
    {
        let (run, rest) = self.rest.split_at_checked(n)?;
        self.rest = rest;
        Some(run)
    }

    fn chunk<const N: usize>(&mut self) -> Option<[u8; N]>
        ensures onward { length self.new.rest.now ≤ length self.old.rest.now }
        ensures taken { IsSome result → 0 < N → length self.new.rest.now < length self.old.rest.now }
    {
        let (chunk, rest) = self.rest.split_first_chunk::<N>()?;
        self.rest = rest;
        Some(*chunk)
    }

    pub fn one(&mut self) -> Option<u8>
        ensures onward { length self.new.rest.now ≤ length self.old.rest.now }
        ensures taken { IsSome result → length self.new.rest.now < length self.old.rest.now }
    {
        let [byte] = self.chunk::<1>()?;
        Some(byte)
    }

    pub fn four(&mut self) -> Option<u32>
        ensures { length self.new.rest.now ≤ length self.old.rest.now }
    {
        self.chunk::<4>().map(u32::from_le_bytes)
    }

    pub fn eight(&mut self) -> Option<u64>
        ensures { length self.new.rest.now ≤ length self.old.rest.now }
    {
        self.chunk::<8>().map(u64::from_le_bytes)
    }

    // A count and so many items of that many bytes each.
    pub fn items(&mut self, size: u32) -> Option<&'s [u8]>
        ensures { length self.new.rest.now ≤ length self.old.rest.now }
    {
        let count = self.four()?;
        self.run(size as usize * count as usize)
    }
}
