//! The clients of a plant at their events: a proxy and a screen that say what the rules make them say, and the laws of what
//! clients say.
#![tactic(auto)]

pub mod laws;
mod proxy_role;
mod screen_role;

pub use proxy_role::answer_at_proxy;
pub use screen_role::answer_at_screen;
