//! What holds of a screen beyond its calls.
use crate::screen::Screen;

fn moves<T: Send>(_value: &T) {}

fn lends<T: Sync>(_value: &T) {}

/// A screen may be handed to another thread, and lent to several.
pub fn crosses_threads(screen: &Screen) {
    moves(screen);
    lends(screen);
}
