// The lower layer: arithmetic, tile bounds, and one axis of the tile with its components, resolutions and precincts.
// Every function is total: it answers a value, or `None`, to which specs/Said gives document 01's number.
#![tactic(auto)]

pub mod axis;
pub mod ceiling;
pub mod math;
pub mod power;
pub mod precinct;
pub mod tile;
