//! The picture of a history as an SVG document, by what happened at each of its entries: rows of lanes, one for each actor, with the
//! bands of its views, a mark for each entry of a range, and lines from where frames were said to where they were taken.
#![tactic(auto)]

mod arrows;
mod bands;
mod drawing;
mod legend;
mod marks;
mod picture;
mod rows;
mod sheet;
mod style;

pub use drawing::drawn;
pub use picture::{Lane, Mark, Range, Role, What};
pub use sheet::Sheet;
