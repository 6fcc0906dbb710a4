// What is read of a listed sample: it, or one whose components hold unlike copies of some bit. A read that is refused is `Err`.
#[derive(Clone, Copy, PartialEq, Eq, Debug)]
pub enum Reading {
    Sample { raw: u32, width: u32, value: i64 },
    OverlapDiffers { raw: u32, width: u32, value: i64 },
}
