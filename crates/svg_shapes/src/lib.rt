//! The shapes that pictures of a run are made of, as lines of an SVG document, and the colours that they share.
#![tactic(auto)]

mod colours;
mod shapes;

pub use colours::{WRONG, shade_of};
pub use shapes::{
    put_box, put_closing, put_dashes, put_dot, put_head, put_line, put_number, put_ring, put_view,
};
