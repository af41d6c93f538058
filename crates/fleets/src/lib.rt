// Tables of rows as fleets, each made by its questions in order, and fleets joined.
#![tactic(auto)]

mod fixed;
mod joined;
mod judging;
mod renewables;
mod tables;

pub use fixed::Fixed;
pub use joined::Joined;
pub use renewables::Renewables;
