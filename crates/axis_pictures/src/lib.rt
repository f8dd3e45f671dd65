//! Pictures in a field with axes, as SVG documents: a point over the executions of a master with its alarms, and how long updates
//! took with the views in turn.
#![tactic(auto)]

mod alarms;
mod chart;
mod frame;
mod legend;
mod plot;

pub use chart::chart_of;
pub use frame::Frame;
pub use plot::plot_of;
