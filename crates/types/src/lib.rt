// What the packet iterator speaks of: a sheet's state, its progressions, positions and cursors, and the answers of its calls.
// What is right of them stands in specs/.
#![tactic(auto)]

pub mod answer;
pub mod cursor;
pub mod followed;
pub mod mark;
pub mod order;
pub mod state;
pub mod table;
