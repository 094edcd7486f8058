// The public calls: setup, joining, opening, step, a precinct's rectangle and whole run. Soundness, the test before them, is a crate of its own.
#![tactic(auto)]

pub mod join;
mod marks;
pub mod open;
pub mod output;
pub mod rectangle;
pub mod setup;
pub mod step;
mod table;
pub mod whole;
