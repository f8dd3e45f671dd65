//! Words and inputs move to other threads, and threads share them.

use crate::input::Input;
use crate::words::Word;

fn moves<T: Send>(_value: &T) {}

fn lends<T: Sync>(_value: &T) {}

/// A word may be given to another thread, and lent to several.
pub fn word_may_cross(word: &Word) {
    moves(word);
    lends(word);
}

/// An input may be given to another thread, and lent to several.
pub fn input_may_cross(input: &Input) {
    moves(input);
    lends(input);
}
