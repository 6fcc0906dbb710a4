// A page of reads: what is asked, what each is answered, and what the call itself is. Plain structs, so that a list of them can be
// lent, in C's layout.

// How many requests a page may have.
pub const REQUESTS: usize = 256;

// Both counted from 1.
#[repr(C)]
#[derive(Clone, Copy)]
pub struct Request {
    pub parameter: u32,
    pub sample: u32,
}

// A reading in numbers. The kind is 1 for a sample, 2 for one whose copies differ, and all is 0 but the number where it is refused.
#[repr(C)]
#[derive(Clone, Copy)]
pub struct Outcome {
    pub number: u32,
    pub kind: u32,
    pub width: u32,
    pub raw: u32,
    pub value: i64,
}

// How many results are written, 0 where the page is refused.
#[repr(C)]
#[derive(Clone, Copy)]
pub struct Paged {
    pub number: u32,
    pub count: u32,
}
