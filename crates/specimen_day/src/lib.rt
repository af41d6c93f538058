// The specimen: a small day with two thermal units and a renewable station, and how a vendor's file is answered for it.
#![tactic(auto)]

mod answers;
mod offering;
mod rows;

pub use answers::Answers;
pub use offering::{MOST_BYTES, answer, stars_follow};
