//! An event of a run as it is lent, and the line that it is written in.
#![tactic(auto)]

mod line;
mod view;

pub use line::line_of;
pub use op_trace::Port;
pub use view::EventView;
