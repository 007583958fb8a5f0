// Recorded readings, and the lane of each port among them.
#![tactic(auto)]

pub mod lane;
pub mod reading;
