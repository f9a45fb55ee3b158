//! The picture of a run: a space-time diagram (Lamport 1978) as SVG. Each node has a line, time runs to the right, and each event
//! that is shown has a column. A page has the picture, and steps through the run.
#![tactic(auto)]

mod cell;
mod deeds;
mod frames;
mod height;
mod html;
mod ink;
mod label;
mod layout;
mod links;
mod mark;
mod marks;
mod page;
mod picture;
mod rows;
mod side;
mod steps;
mod style;
mod window;

pub use html::write_page;
pub use page::{Drawing, write_drawing};
pub use picture::Picture;
pub use steps::Steps;
pub use window::Window;
