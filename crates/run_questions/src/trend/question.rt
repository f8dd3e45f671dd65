/// What is asked of each master: a point's changes by the executed updates number `first` to `last`, both among them.
#[derive(Clone, Copy)]
pub struct Question {
    pub point: u32,
    pub first: u64,
    pub last: u64,
}
