//! Pre-ordering, after Prime: the requests and acknowledgements that a master says, and which requests are
//! certified. It keeps an index that agrees with the definitions over all that its master took, knows and
//! said; none of these lists is kept.
#![tactic(auto)]

mod acks;
mod again;
mod ballots;
mod certificates;
mod firsts;
mod introducing;
mod lanes;
pub mod laws;
mod letting;
pub mod preorder;
mod requests;
mod updates;

pub use preorder::Preorder;
pub use requests::is_door;
