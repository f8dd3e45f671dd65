//! The page's script, in parts.

pub(crate) mod causes;
pub(crate) mod delays;
pub(crate) mod head;
pub(crate) mod line;
pub(crate) mod page;
pub(crate) mod plots;
pub(crate) mod read;
pub(crate) mod words;
