// Thermal units: rows that start and stop, by rules on their times, their outputs and their ramps.
#![tactic(auto)]

mod mark;
mod ruling;
mod table;

pub use table::Thermal;
