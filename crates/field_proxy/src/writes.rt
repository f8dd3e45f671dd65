/// A write that a proxy made: the number of the order, the point, the raw value, and the code of the exception that the
/// device answered with, if any.
#[derive(Clone, Copy, Debug, PartialEq, Eq)]
pub struct Write {
    pub number: u64,
    pub point: u32,
    pub raw: u16,
    pub exception: Option<u8>,
}
