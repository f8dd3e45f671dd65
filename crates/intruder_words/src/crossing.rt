use crate::Overheard;

fn moves<T: Send>(_value: &T) {}

fn lends<T: Sync>(_value: &T) {}

/// A law, which does nothing: what is overheard may be moved to another thread and lent to several.
pub fn may_cross(overheard: &Overheard) {
    moves(overheard);
    lends(overheard);
}
