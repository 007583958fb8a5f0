// A session file played on the tower's controller, line by line.
#![tactic(auto)]

pub mod play;
pub mod reply;
pub mod transcript;
