// The most bytes that a stream may have.
pub const LONGEST_STREAM: usize = 65536;

// What reading a card answers, where it is not refused: how many bits stand before the frame, and how many words it has.
#[derive(Clone, Copy, PartialEq, Eq, Debug)]
pub struct Found {
    pub position: u32,
    pub count: u32,
}
