//! What may be posted.

/// What may be posted to an inbox. An inbox keeps it of all that it holds, so that who takes an item knows it.
pub trait Postable: Drop {
    /// Whether the item may be posted.
    ghost fits: { Self → Type 0 };
}
