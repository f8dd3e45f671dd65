use play_words::Input;
use stamps::StampSeat;

/// An actor of a run before its station is made, with its seat and what it is given.
#[derive(Drop)]
pub struct Place {
    pub actor: u32,
    pub seat: StampSeat,
    pub inputs: Vec<Input>,
}
