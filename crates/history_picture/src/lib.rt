//! Pictures of printed runs, as SVG documents: the entries of a history in rows of lanes, a point over the executions, and how
//! long updates took. What each shows is made of the history first, and then drawn; both are proved to be what `specs/` defines.
#![tactic(auto)]

mod asked;
mod charted;
mod fault;
mod happened;

pub use asked::{history_picture, point_plot};
pub use charted::delays_chart;
pub use fault::PictureRefusal;
