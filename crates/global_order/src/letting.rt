/// Lets go of a value. A map's drop is many steps in the proof of each struct that holds one: a call is one.
pub fn let_go<T: Drop>(_value: T) {}
